// Values with their bounds: what a forecast is turned back in.
#![tactic(auto)]

pub mod rangevector;
