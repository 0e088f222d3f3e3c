// What writes the snapshot (document 01: trace text). Its definitions and laws are in crate `snapshot`.
#![tactic(auto)]

pub mod line;
pub mod save;
mod write;
