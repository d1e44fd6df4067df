// The worked cases of document 01: no code, only the table in specs/ and the statement in proofs/
// that the definitions give what the table says.
#![tactic(auto)]
