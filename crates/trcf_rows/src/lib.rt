// Which row refuses a call of the preprocessor.
#![tactic(auto)]

pub mod learn_rows;
pub mod rows;
