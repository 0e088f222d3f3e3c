// The snapshot (document 01: trace text): its fields and lines, as they are read. Its definitions are in specs/, and what holds of them in proofs/.
#![tactic(auto)]

pub mod cells;
pub mod field;
pub mod head;
pub mod judge;
pub mod kinds;
pub mod limits;
pub mod piece;
mod reader;
mod settings;
pub mod values;
