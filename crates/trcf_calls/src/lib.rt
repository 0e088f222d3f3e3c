// A new preprocessor, and the calls that change nothing.
#![tactic(auto)]

pub mod build;
pub mod queries;
