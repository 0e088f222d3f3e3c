// Replays answers of the Rust (docs/VECTORS.md) on the transformer of `trcf`, and prints how many lines agree and how many differ.
#![tactic(auto)]

mod transformer;

use transformer::Transformed;
use vectors_core::tally::replay;

fn main(rt: HostRuntime) {
    let mut state = Transformed::new();
    replay(&rt, "transformer", |line| state.replay_line(line));
}
