// The call that learns.
#![tactic(auto)]

pub mod learn;
pub mod post_process;
