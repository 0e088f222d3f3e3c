// What is printed: a line a pair, or `no` and the number.
ghost use Rattle.std.specs.Prelude.{◌≡◌, map, ◌+◌, ◌≤◌, IfOk, length};
ghost use Rattle.snapshot.specs.Save.{saved_told};
ghost use Rattle.snapshot.specs.Steps.Write.{Wrote};
ghost use Rattle.settling.specs.Settling.{run_of};
ghost use Rattle.settling.specs.Steps.{signal_of, noted_by};
ghost use Rattle.settle_core.specs.Settle.{noted_line, line_texts, settled_on};
ghost use Rattle.settle_core.specs.Steps.{pair_settings};

use crate::judge::judge;
use crate::pair::Pair;
use refusal::Refusal;
use settling::run::{Settled, run};
use settling::signal::Signal;
use snapshot_save::line::{optional_line, whole_line};

// The bytes that the output has to have.
pub const ROOM: usize = 256;

// What is noted of a pair's run: nothing of one that is refused.
fn noted(p: Pair, signal: Signal) -> Settled
    ensures { noted_by result ≡ (run_of (pair_settings p) (signal_of signal)).noted }
{
    run(p.builder, p.weight, signal).unwrap_or(Settled {
        ready: None,
        largest: None,
    })
}

// The line of one pair, whose index is i, at a place of the output: "(n if never)".
fn print_pair(out: &mut [u8], at: usize, i: usize, p: Pair, signal: Signal) -> usize
    requires at_in_bounds { at + 32 ≤ length out.old }
    requires i_bound { i ≤ 7 }
    ensures wrote { Wrote at (noted_line (i + 1) signal.readings (run_of (pair_settings p) (signal_of signal)).noted) out.old result out.new }
    ensures upper_bound { result ≤ at + 32 }
{
    let s = noted(p, signal);
    let ready = s.ready.unwrap_or(signal.readings);
    let line = optional_line(&mut out[at..], b'1' + i as u8, ready, s.largest);
    at + line.unwrap_or(0)
}

// A line for each pair.
fn print_all(pairs: &[Pair], signal: Signal, out: &mut [u8]) -> usize
    requires count_bound { length pairs.now ≤ 8 }
    requires in_bounds { 256 ≤ length out.old }
    ensures wrote { Wrote 0 (line_texts 1 (map pair_settings pairs.now) (signal_of signal)) out.old result out.new }
    ensures upper_bound { result ≤ 256 }
{
    let mut at = 0;
    for (i, pair) in pairs.iter().enumerate() {
        at = print_pair(out, at, i, *pair, signal);
    }
    at
}

// What the program prints for the input, and its length; row 20 with nothing written, where the output has less than ROOM bytes.
pub fn settle(input: &[u8], output: &mut [u8]) -> Result<usize, Refusal>
    ensures output_after { saved_told result output.new ≡ settled_on input.now output.old }
    ensures length_in_bounds { IfOk result (λ n. n ≤ length output.new) }
{
    if output.len() < ROOM {
        return Err(Refusal::TooShort);
    }
    match judge(input) {
        Ok(judged) => Ok(print_all(&judged.pairs[..judged.count], judged.signal, output)),
        Err(refusal) => whole_line(output, b'n', b'o', u64::from(refusal)),
    }
}
