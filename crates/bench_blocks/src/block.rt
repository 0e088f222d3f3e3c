// A whole block of the input: every cell that ends in it, as long as the output has room, and the end of the input.
ghost use Rattle.std.specs.Prelude.{◌≡◌, [], false, suc, ◌+◌, ◌≤◌, length, drop};
ghost use Rattle.trcf.specs.View.{lent};
ghost use Rattle.bench_core.specs.Bench.{output};
ghost use Rattle.bench_blocks.specs.Blocks.{block_printed, prints_block, cells_of, block_of};
ghost use Rattle.bench_blocks.specs.Steps.{Placed, Closed, Handed};

use bench_core::step::{Bench, Printed, ROOM, StepResult, finish, step};

// What a block leaves: the bench, how many bytes are read and written, and whether less than ROOM of the output is left for what is not read.
#[derive(Clone, Copy)]
pub struct BlockResult {
    pub bench: Bench,
    pub read: usize,
    pub written: usize,
    pub full: bool,
}

// The first cell from next on, printed from at on.
fn cell_at(
    b: Bench,
    statistics: &mut [f64],
    last_shingled_input: &mut [f32],
    last_shingled_point: &mut [f32],
    previous_timestamps: &mut [u64],
    initial_values: &mut [f32],
    initial_timestamps: &mut [u64],
    point: &mut [f32],
    text: &[u8],
    next: usize,
    out: &mut [u8],
    at: usize,
) -> StepResult
    requires next_in_bounds { next ≤ length text.now }
    requires at_in_bounds { at + 65536 ≤ length out.old }
    ensures { Placed b
        (lent statistics.old last_shingled_input.old last_shingled_point.old previous_timestamps.old initial_values.old initial_timestamps.old) point.old
        (drop next text.now) out.old at result.bench
        (lent statistics.new last_shingled_input.new last_shingled_point.new previous_timestamps.new initial_values.new initial_timestamps.new) point.new out.new result.next result.length }
{
    let end = at + ROOM;
    let cell = step(
        b,
        statistics,
        last_shingled_input,
        last_shingled_point,
        previous_timestamps,
        initial_values,
        initial_timestamps,
        point,
        &text[next..],
        &mut out[at..end],
    );
    cell.unwrap()
}

// Every cell that ends in the text, as long as the output has room.
fn cells(
    b: Bench,
    statistics: &mut [f64],
    last_shingled_input: &mut [f32],
    last_shingled_point: &mut [f32],
    previous_timestamps: &mut [u64],
    initial_values: &mut [f32],
    initial_timestamps: &mut [u64],
    point: &mut [f32],
    text: &[u8],
    out: &mut [u8],
) -> BlockResult
    ensures { Handed (cells_of (suc (length text.now)) (length out.old) b
        (lent statistics.old last_shingled_input.old last_shingled_point.old previous_timestamps.old initial_values.old initial_timestamps.old) point.old text.now 0 [])
        text.now out.old (block_printed result.bench
        (lent statistics.new last_shingled_input.new last_shingled_point.new previous_timestamps.new initial_values.new initial_timestamps.new) point.new result.read
        (output result.written out.new) result.full) }
{
    let mut bench = b;
    let mut next = 0usize;
    let mut at = 0usize;
    while ROOM <= out.len() - at {
        let s = cell_at(
            bench,
            statistics,
            last_shingled_input,
            last_shingled_point,
            previous_timestamps,
            initial_values,
            initial_timestamps,
            point,
            text,
            next,
            out,
            at,
        );
        bench = s.bench;
        if s.next == 0 {
            return BlockResult {
                bench,
                read: next,
                written: at,
                full: false,
            };
        }
        next += s.next;
        at += s.length;
    }
    BlockResult {
        bench,
        read: next,
        written: at,
        full: true,
    }
}

// The end of the input, after the bytes of the text from next on, printed from at on.
fn end_at(b: Bench, text: &[u8], next: usize, out: &mut [u8], at: usize) -> Printed
    requires next_in_bounds { next ≤ length text.now }
    requires at_in_bounds { at + 65536 ≤ length out.old }
    ensures { Closed b (drop next text.now) out.old at result.bench out.new result.length }
{
    let end = at + ROOM;
    let last = finish(b, &text[next..], &mut out[at..end]);
    last.unwrap()
}

// A block of the input: every cell that ends in it, as long as ROOM bytes of the output are left, and where no cell is left and the input ends
// here, its end.
pub fn block(
    b: Bench,
    statistics: &mut [f64],
    last_shingled_input: &mut [f32],
    last_shingled_point: &mut [f32],
    previous_timestamps: &mut [u64],
    initial_values: &mut [f32],
    initial_timestamps: &mut [u64],
    point: &mut [f32],
    text: &[u8],
    ends: bool,
    out: &mut [u8],
) -> BlockResult
    ensures full_after { block_printed result.bench
        (lent statistics.new last_shingled_input.new last_shingled_point.new previous_timestamps.new initial_values.new initial_timestamps.new) point.new
        result.read (output result.written out.new) result.full
        ≡ prints_block (block_of b
        (lent statistics.old last_shingled_input.old last_shingled_point.old previous_timestamps.old initial_values.old initial_timestamps.old) point.old text.now ends (length out.old)) out.old }
    ensures read_in_bounds { result.read ≤ length text.now }
    ensures written_in_bounds { result.written ≤ length out.new }
{
    let r = cells(
        b,
        statistics,
        last_shingled_input,
        last_shingled_point,
        previous_timestamps,
        initial_values,
        initial_timestamps,
        point,
        text,
        out,
    );
    if !ends {
        return r;
    }
    if r.full {
        return r;
    }
    let last = end_at(r.bench, text, r.read, out, r.written);
    BlockResult {
        bench: last.bench,
        read: text.len(),
        written: r.written + last.length,
        full: false,
    }
}
