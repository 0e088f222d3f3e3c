// The first line of a snapshot, the settings (document 01, 'Trace text': `set`).
// Kept: (d) a text and a place, as in piece.rt, which says why.
ghost use Rattle.std.specs.Prelude.{◌≡◌, length, drop};
ghost use Rattle.snapshot.specs.Scan.{told};
ghost use Rattle.snapshot.specs.Steps.Judge.{mode_in, method_in, set_test, tail_told, tail_by, set_told, set_by};

use crate::judge::{Cell, fields};
use crate::piece::{byte, name};
use common::deviation::outside_unit;
use trcf::types::{
    ForestMode, INPUT_LIMIT, SHINGLE_LIMIT, START_BOUND, TransformMethod, mode_of_letter,
};
use trcf_rows::rows::is_imputing;

// The mode that the letter at a place names, or none.
fn mode_at(text: &[u8], at: usize) -> Option<ForestMode>
    ensures { told result ≡ mode_in (drop at text.now) }
{
    if at < text.len() {
        let mode = mode_of_letter(u64::from(text[at]));
        if !is_imputing(mode) {
            return Some(mode);
        }
    }
    None
}

// The method of a number, or none.
fn method_of(n: u64) -> Option<TransformMethod>
    ensures { told result ≡ method_in n }
{
    TransformMethod::try_from(n).ok()
}

// Whether rows 2, 3, 4, 6, 7 and 8 let the settings pass.
#[tactic(auto, unfolding(crate::specs::Steps::Judge::set_test))]
fn settings_fit(d: u64, k: u64, start: u64, stop: u64, decay: f64) -> bool
    ensures { result ≡ set_test d k start stop decay }
{
    d != 0
        && k != 0
        && d <= INPUT_LIMIT as u64
        && k <= SHINGLE_LIMIT as u64
        && !outside_unit(decay)
        && start <= stop
        && start < START_BOUND as u64
}

// The end of the line: decay, weight_time and the place after them.
#[derive(Clone, Copy, Debug, PartialEq)]
pub(crate) struct Tail {
    pub end: usize,
    pub decay: f64,
    pub weight_time: f32,
}

fn set_tail(text: &[u8], at: usize) -> Option<Tail>
    ensures { tail_told result text.now ≡ tail_by (drop at text.now) }
{
    let (decay, p) = f64::cell(text, at)?;
    let (weight_time, q) = f32::cell(text, p)?;
    let end = byte(text, q, 10)?;
    Some(Tail {
        end,
        decay,
        weight_time,
    })
}

// The settings but for the weights, and the place after their line.
#[derive(Clone, Copy, Debug, PartialEq)]
pub(crate) struct Set {
    pub end: usize,
    pub mode: ForestMode,
    pub method: TransformMethod,
    pub d: u64,
    pub k: u64,
    pub start: u64,
    pub stop: u64,
    pub decay: f64,
    pub weight_time: f32,
}

// The line of the settings, which begins the text.
pub(crate) fn set_line(text: &[u8]) -> Option<Set>
    ensures { set_told result text.now ≡ set_by text.now }
{
    let p = name(text, 0, [b's' as u64, b'e' as u64, b't' as u64])?;
    let q = byte(text, p, 9)?;
    let mode = mode_at(text, q)?;
    let mut n = [0u64; 5];
    let s = fields(text, q + 1, &mut n[..])?;
    let method = method_of(n[0])?;
    let tail = set_tail(text, s)?;
    if !settings_fit(n[1], n[2], n[3], n[4], tail.decay) {
        return None;
    }
    Some(Set {
        end: tail.end,
        mode,
        method,
        d: n[1],
        k: n[2],
        start: n[3],
        stop: n[4],
        decay: tail.decay,
        weight_time: tail.weight_time,
    })
}
