// The calls of the library under names of C, for a program in another language to link: include/rainbow.h
// declares them. Each hands on what it is given, and promises what the call behind it promises.
#![tactic(auto)]

pub mod indexing;
pub mod machine_calls;
pub mod processors;
pub mod scan_lines;
pub mod screen;
pub mod watching;
