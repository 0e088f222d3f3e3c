// What takes a snapshot up (document 01: trace text). Its definitions and the laws of the text are in crate `snapshot`.
#![tactic(auto)]

mod codes;
mod lines;
pub mod restore;
