// The call that turns a forecast back.
#![tactic(auto)]

pub mod forecast;
