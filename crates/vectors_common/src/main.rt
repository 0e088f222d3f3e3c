// Replays answers of the Rust (docs/VECTORS.md) on `common`, and prints how many lines agree and how many differ.
#![tactic(auto)]

mod deviation;
mod range;

use common::deviation::Deviation;
use vectors_core::bounded::Bounded;
use vectors_core::tally::replay;

fn main(rt: HostRuntime) {
    let mut statistic = Deviation::default();
    replay(&rt, "deviation", |line| {
        deviation::replay_line(line, &mut statistic)
    });
    let mut singles = Bounded::<f32, { range::MOST }>::new();
    replay(
        &rt,
        "range32",
        |line| range::replay_line(line, &mut singles),
    );
    let mut doubles = Bounded::<f64, { range::MOST }>::new();
    replay(
        &rt,
        "range64",
        |line| range::replay_line(line, &mut doubles),
    );
}
