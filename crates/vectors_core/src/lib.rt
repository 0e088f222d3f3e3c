// What the programs that replay lines of answers share (docs/VECTORS.md): the numbers of a field, the fields of a line, lists of them, answers compared with the fields where they stand,
// and the tally of a file. It uses nothing of what is replayed.
#![tactic(auto)]

pub mod bounded;
mod digits;
pub mod field;
pub mod fields;
pub mod memory;
pub mod tally;
#[cfg(test)]
mod tests;
