// One turn of the program `bench`: the bytes that a read brought, after those that are kept of the block before, and what is kept of both.
ghost use Rattle.std.specs.Prelude.{◌≡◌, ◌+◌, ◌≤◌, IfOk, length, take, drop};
ghost use Rattle.refusal.specs.Lent.{over};
ghost use Rattle.trcf.specs.View.{lent};
ghost use Rattle.bench_blocks.specs.Turns.{first_run, unfit, bytes_in_text, ends_at, bytes_kept, turn_by, turn_of};

use crate::block::block;
use bench_core::step::{Bench, LONGEST, ROOM, start};
use refusal::Refusal;

// Between two turns: the bench, how many bytes are kept at the front of the text, and whether the last turn stopped because the output was
// nearly full. The next one then takes no new bytes.
#[derive(Clone, Copy)]
pub struct Run {
    pub bench: Bench,
    pub kept: usize,
    pub full: bool,
}

// What a turn leaves: the run, and how many bytes are to be written.
#[derive(Clone, Copy)]
pub struct TurnResult {
    pub run: Run,
    pub written: usize,
}

// A run that has read nothing.
pub fn first_run() -> Run
    ensures { result ≡ first_run }
{
    Run {
        bench: start(),
        kept: 0,
        full: false,
    }
}

// Whether the memory does not do: an output of less than ROOM, a text that kept bytes could fill, or one shorter than what should stand in it.
fn is_unfit(kept: usize, got: usize, size: usize, space: usize) -> bool
    ensures { result ≡ unfit kept got size space }
{
    space < ROOM || size <= LONGEST || size < kept || size - kept < got
}

// How many bytes stand in the text.
fn standing_in(kept: usize, got: usize, full: bool) -> usize
    requires { kept + got ≤ 18446744073709551615 }
    ensures value { result ≡ bytes_in_text kept got full }
    ensures upper_bound { result ≤ kept + got }
{
    if full { kept } else { kept + got }
}

// Whether the input ends here: a read brought nothing.
fn is_end(got: usize, full: bool) -> bool
    ensures { result ≡ ends_at got full }
{
    !full && got == 0
}

// How much is kept of n bytes that are not read: all where the output is nearly full. Else no cell ends in them, and LONGEST are enough.
fn rest_of(n: usize, full: bool) -> usize
    ensures value { result ≡ bytes_kept n full }
    ensures upper_bound { result ≤ n }
{
    if full { n } else { n.min(LONGEST) }
}

// Moves n bytes of the text, from place `from` on, to its front.
fn carry(text: &mut [u8], from: usize, n: usize)
    requires { from + n ≤ length text.old }
    ensures { text.new ≡ over text.old (take n (drop from text.old)) }
{
    text.copy_within(from..from + n, 0);
}

// A turn: `got` bytes were read to the text after those that are kept, none at the end of the input. Every cell is read that ends there, as long as
// the output has room; the first `written` bytes of the output are to be written then, and the next bytes of the input are to be read after what is
// kept. After a turn that stopped for the output, the next one takes what is kept as it is, whatever `got` says.
pub fn turn(
    run: Run,
    statistics: &mut [f64],
    last_shingled_input: &mut [f32],
    last_shingled_point: &mut [f32],
    previous_timestamps: &mut [u64],
    initial_values: &mut [f32],
    initial_timestamps: &mut [u64],
    point: &mut [f32],
    text: &mut [u8],
    got: usize,
    out: &mut [u8],
) -> Result<TurnResult, Refusal>
    ensures out_after { turn_by result run
        (lent statistics.new last_shingled_input.new last_shingled_point.new previous_timestamps.new initial_values.new initial_timestamps.new) point.new text.new out.new
        ≡ turn_of run (lent statistics.old last_shingled_input.old last_shingled_point.old previous_timestamps.old initial_values.old initial_timestamps.old) point.old text.old got out.old }
    ensures written_in_bounds { IfOk result (λ turned. turned.written ≤ length out.new) }
    ensures kept_in_bounds { IfOk result (λ turned. turned.run.kept ≤ length text.new) }
{
    if is_unfit(run.kept, got, text.len(), out.len()) {
        return Err(Refusal::TooShort);
    }
    let n = standing_in(run.kept, got, run.full);
    let r = block(
        run.bench,
        statistics,
        last_shingled_input,
        last_shingled_point,
        previous_timestamps,
        initial_values,
        initial_timestamps,
        point,
        &text[..n],
        is_end(got, run.full),
        out,
    );
    let rest = rest_of(n - r.read, r.full);
    carry(text, r.read, rest);
    Ok(TurnResult {
        run: Run {
            bench: r.bench,
            kept: rest,
            full: r.full,
        },
        written: r.written,
    })
}
