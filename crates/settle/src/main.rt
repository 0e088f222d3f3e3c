// The settling program (request 106): reads standard input, hands it to `settle_core`, and writes what that prints. Of an input longer than the text has room
// for, the front is judged: it is refused, since nothing of the form is so long.
#![tactic(auto)]

use reading::{read_full, room};
use settle_core::settle::settle;

fn main(rt: HostRuntime) {
    let mut input = rt.stdin();
    let mut text = room();
    let mut out = [0u8; 256];
    let n = read_full(&mut input, &mut text);
    let length = settle(&text[..n], &mut out).unwrap_or(0);
    let _ = rt.write_all(&out[..length]);
}
