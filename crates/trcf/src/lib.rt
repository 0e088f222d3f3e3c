// The preprocessor of a stream of readings: its settings and statistics, the transform of a reading, and the definitions and laws of all its calls.
#![tactic(auto)]

mod blocks;
pub mod feeding;
pub mod head;
mod lengths;
pub mod output;
mod passes;
pub mod shingle;
mod statistics;
pub mod time;
pub mod transformer;
pub mod types;
