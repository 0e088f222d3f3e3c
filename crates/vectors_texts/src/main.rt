// Replays texts that the Rust has judged (docs/VECTORS.md) on taking up and putting away, and prints how many agree and how many differ.
#![tactic(auto)]

mod announced;
mod saved;
mod texts;

use texts::replay_file;

// The files, in the order of the report.
const FILES: [&str; 9] = [
    "texts_1",
    "texts_2",
    "texts_3",
    "texts_4",
    "texts_5",
    "texts_6",
    "texts_far",
    "texts_gap",
    "texts_edges",
];

fn main(rt: HostRuntime) {
    for name in FILES {
        replay_file(&rt, name);
    }
}
