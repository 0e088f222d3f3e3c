// The calls that drain, and the point.
#![tactic(auto)]

pub mod drain;
pub mod point;
