// Replays inputs of the bench (inputs.py makes them) on `bench_blocks`, and prints how many outputs agree with the Rust's and how many differ.
#![tactic(auto)]

use bench_blocks::block::block;
use bench_core::step::start;
use reading::room;
use replaying::replay_file;

// Whether the bench prints just this for a text, which is one block with the end of the input after it. An output that the room is too small for differs.
fn agrees(text: &[u8], expected: &[u8], out: &mut [u8]) -> bool {
    let mut statistics = [0.0f64; 75];
    let mut last_shingled_input = [0.0f32; 256];
    let mut last_shingled_point = [0.0f32; 320];
    let mut previous_timestamps = [0u64; 64];
    let mut initial_values = [0.0f32; 2000];
    let mut initial_timestamps = [0u64; 500];
    let mut point = [0.0f32; 320];
    let r = block(
        start(),
        &mut statistics,
        &mut last_shingled_input,
        &mut last_shingled_point,
        &mut previous_timestamps,
        &mut initial_values,
        &mut initial_timestamps,
        &mut point,
        text,
        true,
        out,
    );
    !r.full && &out[..r.written] == expected
}

fn main(rt: HostRuntime) {
    for name in ["inputs", "long", "gap", "wrong"] {
        let mut out = room();
        replay_file(&rt, name, |text, expected| agrees(text, expected, &mut out));
    }
}
