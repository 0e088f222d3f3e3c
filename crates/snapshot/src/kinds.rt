// Each kind of line of a snapshot, as it is read (document 01: taking up).
// Kept: (d) a text and a place, as in piece.rt, which says why.
ghost use Rattle.std.specs.Prelude.{◌≡◌, ◌&&◌, ◌+◌, ◌*◌, ◌≤◌, ◌<◌, ltb, length, take, drop, replicate};
ghost use Rattle.std.specs.Float.{binary32};
ghost use Rattle.refusal.specs.Lent.{over};
ghost use Rattle.trcf.specs.Types.{normalizes};
ghost use Rattle.snapshot.specs.Read.{as_whole, as_float};
ghost use Rattle.snapshot.specs.Steps.Judge.{line_firsts, buf_firsts, Filled, FilledWith, codes_read, chn_or, chn_by, wgt_test, wgt_by};
ghost use Rattle.snapshot.specs.Steps.Judge.{cnt_test, cnt_told, cnt_by, tim_test, tim_by, buf_by, counts_read};

use crate::judge::{Cell, fields, list_line};
use crate::piece::{byte, name};
use crate::values::{all_zero, codes_fit, narrowed, none_falls};
use common::deviation::COUNT_LIMIT;
use trcf::head::SEEN_LIMIT;
use trcf::transformer::all_one;
use trcf::types::{TransformMethod, is_none, is_normalizing};
use trcf_rows::rows::all_finite;

// Whether the weights are 1 where the method has none.
#[tactic(auto, unfolding(crate::specs::Steps::Judge::wgt_test))]
fn weights_fit(method: TransformMethod, weights: &[f32]) -> bool
    ensures { result ≡ wgt_test method weights.now }
{
    !is_none(method) || all_one(weights)
}

// The weights, as many as `out` is long.
pub(crate) fn wgt_line(
    text: &[u8],
    at: usize,
    method: TransformMethod,
    out: &mut [f32],
) -> Option<usize>
    ensures { Filled (wgt_by method (length out.old) (drop at text.now)) (line_firsts (as_float binary32) 119 103 116 (length out.old) (drop at text.now)) text.now out.old result out.new }
{
    let place = list_line(text, at, [b'w' as u64, b'g' as u64, b't' as u64], out);
    if !weights_fit(method, out) {
        return None;
    }
    place
}

// Line 3: the codes where they stand there, one line more, and the place after them; else zeros, no line, and the place before it.
#[derive(Clone, Copy, Debug, PartialEq, Eq)]
pub(crate) struct Coded {
    pub extra: usize,
    pub at: usize,
    pub codes: [u16; 16],
}

// The codes, as many as `out` is long.
fn chn_codes(text: &[u8], at: usize, out: &mut [u64]) -> Option<usize>
    ensures { Filled (chn_by (length out.old) (drop at text.now)) (line_firsts as_whole 99 104 110 (length out.old) (drop at text.now)) text.now out.old result out.new }
{
    let place = list_line(text, at, [b'c' as u64, b'h' as u64, b'n' as u64], out);
    if !codes_fit(out) {
        return None;
    }
    place
}

pub(crate) fn chn_line(text: &[u8], at: usize, d: usize) -> Coded
    requires { d ≤ 16 }
    ensures text_value { codes_read result.extra (take d result.codes) (drop result.at text.now) ≡ chn_or d (chn_by d (drop at text.now)) (drop at text.now) }
    ensures codes_value { result.codes ≡ over (replicate 16 0) (take d result.codes) }
    ensures extra_bound { result.extra ≤ 1 }
{
    let mut w = [0u64; 16];
    let Some(p) = chn_codes(text, at, &mut w[..d]) else {
        return Coded {
            extra: 0,
            at,
            codes: [0; 16],
        };
    };
    let own = narrowed(&w[..d]);
    Coded {
        extra: 1,
        at: p,
        codes: own,
    }
}

// Whether no time falls, and each is 0 where none was counted.
#[tactic(auto, unfolding(crate::specs::Steps::Judge::tim_test))]
fn times_fit(internal: usize, times: &[u64]) -> bool
    ensures { result ≡ tim_test internal times.now }
{
    none_falls(times) && (internal != 0 || all_zero(times))
}

// The last times, as many as `out` is long.
pub fn tim_line(text: &[u8], at: usize, internal: usize, out: &mut [u64]) -> Option<usize>
    ensures { Filled (tim_by internal (length out.old) (drop at text.now)) (line_firsts as_whole 116 105 109 (length out.old) (drop at text.now)) text.now out.old result out.new }
{
    let place = list_line(text, at, [b't' as u64, b'i' as u64, b'm' as u64], out);
    if !times_fit(internal, out) {
        return None;
    }
    place
}

pub fn is_waiting(method: TransformMethod, start: usize, seen: u64) -> bool
    ensures { result ≡ normalizes method && ltb seen start }
{
    is_normalizing(method) && seen < start as u64
}

// Whether the counters are within their limits, and internal_timestamp 0 while waiting.
#[tactic(auto, unfolding(crate::specs::Steps::Judge::cnt_test))]
fn counts_fit(method: TransformMethod, start: usize, seen: u64, internal: u64, count: u64) -> bool
    ensures { result ≡ cnt_test method start (counts_read seen internal count) }
{
    seen <= SEEN_LIMIT as u64
        && internal <= SEEN_LIMIT as u64
        && count <= COUNT_LIMIT
        && (!is_waiting(method, start, seen) || internal == 0)
}

// The place after the line of the counters, and what it says.
#[derive(Clone, Copy, Debug, PartialEq, Eq)]
pub(crate) struct Counters {
    pub end: usize,
    pub seen: u64,
    pub internal: u64,
    pub count: u64,
}

// The line of the counters.
pub(crate) fn cnt_line(
    text: &[u8],
    at: usize,
    method: TransformMethod,
    start: usize,
) -> Option<Counters>
    ensures { cnt_told result text.now ≡ cnt_by method start (drop at text.now) }
{
    let mut n = [0u64; 3];
    let end = list_line(
        text,
        at,
        [b'c' as u64, b'n' as u64, b't' as u64],
        &mut n[..],
    )?;
    let [seen, internal, count] = n;
    if !counts_fit(method, start, seen, internal, count) {
        return None;
    }
    Some(Counters {
        end,
        seen,
        internal,
        count,
    })
}

// The place after a line of one initial value, and its time.
#[derive(Clone, Copy, Debug, PartialEq, Eq)]
pub struct Timed {
    pub end: usize,
    pub time: u64,
}

// One initial value, as many numbers as `out` is long, not before the time `past`.
pub fn buf_line(text: &[u8], at: usize, past: u64, out: &mut [f32]) -> Option<Timed>
    ensures { FilledWith (buf_by (length out.old) past (drop at text.now)) (buf_firsts (length out.old) (drop at text.now)) text.now out.old result out.new }
{
    let p = name(text, at, [b'b' as u64, b'u' as u64, b'f' as u64])?;
    let (time, q) = u64::cell(text, p)?;
    let r = fields(text, q, out)?;
    if time < past || !all_finite(out) {
        return None;
    }
    let end = byte(text, r, 10)?;
    Some(Timed { end, time })
}
