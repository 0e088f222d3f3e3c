// Trying settings on a made-up engine (request 106): what the program `settle` prints for a whole input.
#![tactic(auto)]

mod field;
mod judge;
mod pair;
mod scan;
pub mod settle;
