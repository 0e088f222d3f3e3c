// One watch on a made-up signal (request 106): how soon it is ready, and how large the last element of its points gets.
#![tactic(auto)]

pub mod run;
pub mod signal;
mod step;
