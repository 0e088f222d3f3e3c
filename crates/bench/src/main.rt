// The bench: reads standard input block by block until it ends, hands each block to `bench_blocks`, and writes what that prints. Proved are what each
// call does, that turns follow until one had room before the next read, that a read leaves what is kept, and that the memory does. That `filled` and
// `turned` read and write, and that `all` hands on the number of bytes that were read, is seen by reading: then a run is one of `Program` (bench_blocks/specs).
#![tactic(auto)]

ghost use Rattle.std.specs.Prelude.{◌+◌, ◌≤◌, ◌<◌, ◌≡◌, true, false, length, take};

use bench_blocks::turn::{Run, first_run, turn};
use bench_core::step::Phase;
use std::io::Read;

// What is lent to the calls: room for 4 values a reading, 64 readings a point and 500 readings that wait, which are the bench's limits.
#[derive(Drop)]
struct Memory {
    statistics: [f64; 75],
    last_shingled_input: [f32; 256],
    last_shingled_point: [f32; 320],
    previous_timestamps: [u64; 64],
    initial_values: [f32; 2000],
    initial_timestamps: [u64; 500],
    point: [f32; 320],
}

// Reads the next bytes of the input to the text, after those that are kept; answers how many, none at the end of the input or where the read fails.
fn filled<R: Read>(input: &mut R, text: &mut [u8], kept: usize) -> usize
    requires { kept < length text.old }
    ensures result_in_bounds { kept + result ≤ length text.new }
    ensures text_unchanged { take kept text.new ≡ take kept text.old }
{
    let got = input.read(&mut text[kept..]);
    got.unwrap_or(0)
}

// One turn, and what it prints written. The run goes on where a write fails.
fn turned(
    rt: &impl Print,
    run: Run,
    memory: &mut Memory,
    text: &mut [u8],
    got: usize,
    out: &mut [u8],
) -> Run
    requires got_in_bounds { run.kept + got ≤ length text.old }
    requires in_bounds { 24 < length text.old }
    requires in_bounds_2 { 65536 ≤ length out.old }
    ensures kept_in_bounds { result.kept ≤ length text.new }
    ensures kept_bound { result.full ≡ false → result.kept ≤ 24 }
    ensures kept_bound_2 { result.full ≡ true → result.kept < run.kept + got }
{
    let t = turn(
        run,
        &mut memory.statistics,
        &mut memory.last_shingled_input,
        &mut memory.last_shingled_point,
        &mut memory.previous_timestamps,
        &mut memory.initial_values,
        &mut memory.initial_timestamps,
        &mut memory.point,
        text,
        got,
        out,
    );
    // the memory does, so no turn is refused
    let turned = t.unwrap();
    let _ = rt.write_all(&out[..turned.written]);
    turned.run
}

// A block: turn after turn, until one has room for all that it prints. Each has read a byte at least, or it would not end.
fn handed(
    rt: &impl Print,
    run: Run,
    memory: &mut Memory,
    text: &mut [u8],
    got: usize,
    out: &mut [u8],
) -> Run
    requires got_in_bounds { run.kept + got ≤ length text.old }
    requires in_bounds { 24 < length text.old }
    requires in_bounds_2 { 65536 ≤ length out.old }
    ensures { (result.full ≡ false) × (result.kept ≤ 24) }
{
    let mut r = turned(rt, run, memory, text, got, out);
    while r.full {
        r = turned(rt, r, memory, text, 0, out);
    }
    r
}

// The whole input, until the bench is at its end. A proved loop has to end, and nothing says that an input does: the loop makes at most a number of reads that
// no run uses up.
fn all<R: Read>(
    rt: &impl Print,
    input: &mut R,
    memory: &mut Memory,
    text: &mut [u8],
    out: &mut [u8],
)
    requires in_bounds { 24 < length text.old }
    requires in_bounds_2 { 65536 ≤ length out.old }
{
    let mut run = first_run();
    for _ in 0..u64::MAX {
        let kept = run.kept;
        let got = filled(input, text, kept);
        run = handed(rt, run, memory, text, got, out);
        if run.bench.phase == Phase::Ended {
            return;
        }
    }
}

fn main(rt: HostRuntime) {
    let mut input = rt.stdin();
    let mut memory = Memory {
        statistics: [0.0; 75],
        last_shingled_input: [0.0; 256],
        last_shingled_point: [0.0; 320],
        previous_timestamps: [0; 64],
        initial_values: [0.0; 2000],
        initial_timestamps: [0; 500],
        point: [0.0; 320],
    };
    let mut text = [0u8; 131072];
    let mut out = [0u8; 262144];
    all(&rt, &mut input, &mut memory, &mut text, &mut out);
}
