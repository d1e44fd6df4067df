// The archive for C: exports the calls of crate rainbow under the same names, with the same promises, since a crate is
// a library or a static library and not both. include/rainbow.h declares them.
#![tactic(auto)]

mod indexing;
mod machine_calls;
mod processors;
mod scan_lines;
mod screen;
mod watching;
