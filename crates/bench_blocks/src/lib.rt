// The bench on an input that arrives in blocks: what the program `bench` does between a read and a write.
#![tactic(auto)]

pub mod block;
pub mod turn;
