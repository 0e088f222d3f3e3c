// The static library: the calls of the preprocessor and of its text, and those that take none, with C's calling convention, on numbers and lent parts
// (pointer, then length).
// include/veerycouch.h describes it for C.
#![tactic(auto)]

mod answer;
pub mod calls;
mod codes;
pub mod counts;
pub mod getters;
mod head;
pub mod lists;
pub mod numbers;
pub mod outputs;
pub mod restore;
pub mod statistic;
mod words;
