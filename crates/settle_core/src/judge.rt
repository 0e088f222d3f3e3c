// The whole input, judged before anything is printed: the first fault decides.
// Kept: (d) a text and a place in it are two parameters, and each contract asks that the place is in the text: a struct of both would ask it once, but contracts would speak of
// its fields (`drop p.at p.text.now`), and what is read of a line or a field would hold the text too.
ghost use Rattle.std.specs.Prelude.{◌≡◌, map, ◌≤◌, IfOk, length, take, drop};
ghost use Rattle.settle_core.specs.Input.{input_from, input_of};
ghost use Rattle.settle_core.specs.Steps.{pair_settings, prefixed, input_in};

use crate::field::signal_at;
use crate::pair::{Pair, pair_at};
use crate::scan::opens_at;
use refusal::Refusal;
use settling::signal::Signal;

// How many pairs there are, their settings, and the signal.
// Kept: (a) no heap and fixed memory, so the pairs stand in an array with their number beside.
#[derive(Clone, Copy)]
pub(crate) struct Judged {
    pub count: usize,
    pub pairs: [Pair; 8],
    pub signal: Signal,
}

// After n pairs, where no further one is read: the signal, unless a pair begins.
fn signalled(text: &[u8], at: usize, n: usize, pairs: [Pair; 8]) -> Result<Judged, Refusal>
    requires { at ≤ length text.now }
    ensures result_value { input_in result ≡ prefixed (map pair_settings (take n pairs)) (input_from 0 (drop at text.now)) }
    ensures count_le_n { IfOk result (λ judged. judged.count ≤ n) }
{
    if opens_at(text, at) {
        return Err(Refusal::Signal);
    }
    match signal_at(text, at) {
        Some(signal) => Ok(Judged {
            count: n,
            pairs,
            signal,
        }),
        None => Err(Refusal::Signal),
    }
}

pub(crate) fn judge(text: &[u8]) -> Result<Judged, Refusal>
    ensures result_value { input_in result ≡ input_of text.now }
    ensures count_bound { IfOk result (λ judged. judged.count ≤ 8) }
{
    if !opens_at(text, 0) {
        return Err(Refusal::Signal);
    }
    let first = pair_at(text, 0)?;
    // what stands past the last pair is not looked at
    let mut pairs = [first.pair; 8];
    let mut at = first.next;
    for n in 1..8 {
        if !opens_at(text, at) {
            return signalled(text, at, n, pairs);
        }
        let read = pair_at(text, at)?;
        pairs[n] = read.pair;
        at = read.next;
    }
    signalled(text, at, 8, pairs)
}
