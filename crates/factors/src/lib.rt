// The factor's table: what 1 - 1/(count + 2) is for the first thousand counts.
#![tactic(auto)]

pub mod table;
