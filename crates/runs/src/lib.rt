// Runs of calls: no code, only what is proved of the calls together. specs/ has the statements in the
// words of document 01, proofs/ their proofs.
#![tactic(auto)]
