// Replays inputs of the settling program (the oracle makes them) on `settle_core`, and prints how many outputs agree with the oracle's and how many differ.
#![tactic(auto)]

use reading::room;
use replaying::replay_file;
use settle_core::settle::settle;

// Whether the settling program prints just this for an input.
fn agrees(text: &[u8], expected: &[u8], out: &mut [u8]) -> bool {
    match settle(text, out) {
        Ok(n) => &out[..n] == expected,
        Err(_) => false,
    }
}

fn main(rt: HostRuntime) {
    for name in ["inputs", "gap", "wrong"] {
        let mut out = room();
        replay_file(&rt, name, |text, expected| agrees(text, expected, &mut out));
    }
}
