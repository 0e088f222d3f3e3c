// Replays lists of calls that the Rust has answered (docs/VECTORS.md) on the preprocessor's calls, and prints how many lines agree and how many differ.
#![tactic(auto)]

mod build;
mod extrapolation;
mod learn;
mod point;
mod queries;
mod replayed;
mod state;
mod text;

use replayed::{Replayed, replay_line};
use std::rt::Files;
use vectors_core::tally::replay;

// The files, in the order of the report.
const FILES: [&str; 5] = [
    "preprocessor_1",
    "preprocessor_6",
    "preprocessor_far",
    "preprocessor_gap",
    "preprocessor_edges",
];

fn replay_file(rt: &(impl Files + Print + Eprint), name: &str) {
    let mut state = Replayed::new();
    replay(rt, name, |line| replay_line(&mut state, line));
}

fn main(rt: HostRuntime) {
    for name in FILES {
        replay_file(&rt, name);
    }
}
