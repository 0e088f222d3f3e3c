// The signal line: `sig` and six whole numbers, with a minus sign if negative.
// Kept: (d) a text and a place in it are two parameters, and each contract asks that the place is in the text: a struct of both would ask it once, but contracts would speak of
// its fields (`drop p.at p.text.now`), and what is read of a line or a field would hold the text too.
ghost use Rattle.std.specs.Prelude.{◌≡◌, ◌≤◌, IfSome, length, drop, option_map};
ghost use Rattle.settling.specs.Steps.{signal_of, option_of};
ghost use Rattle.settle_core.specs.Input.{positive_number, negative_number, signed_of, part_of, limited, fields_of, is_signal, signal_read as signalAt};
ghost use Rattle.settle_core.specs.Steps.{part_in};

use bench_core::step::cell_end;
use settling::signal::{Signal, in_limits};
use snapshot::cells::whole;

// A field: its number, and where the next one begins.
#[derive(Clone, Copy)]
pub(crate) struct Part {
    pub value: i128,
    pub next: usize,
}

fn positive_of(n: Option<u64>) -> Option<i128>
    ensures { option_of result ≡ positive_number n }
{
    n.map(|n| i128::from(n))
}

// A minus sign stands before no 0.
fn negative_of(n: Option<u64>) -> Option<i128>
    ensures { option_of result ≡ negative_number n }
{
    match n {
        Some(n) if n != 0 => Some(-i128::from(n)),
        _ => None,
    }
}

#[tactic(auto, unfolding(crate::specs::Input::signed_of))]
fn signed_of(c: &[u8]) -> Option<i128>
    ensures { option_of result ≡ signed_of c.now }
{
    match c {
        [] => None,
        [b'-', digits @ ..] => negative_of(whole(digits)),
        _ => positive_of(whole(c)),
    }
}

// The field at a place, which the byte `end` has to end.
fn part_at(text: &[u8], at: usize, end: u8) -> Option<Part>
    requires { at ≤ length text.now }
    ensures text_value { part_in result text.now ≡ part_of end (drop at text.now) }
    ensures next_in_bounds { IfSome result (λ part. part.next ≤ length text.now) }
{
    let e = at + cell_end(&text[at..]);
    if e == text.len() || text[e] != end {
        return None;
    }
    let value = signed_of(&text[at..e])?;
    Some(Part { value, next: e + 1 })
}

// The numbers as a signal: the place and the number of readings have no sign.
fn signal_of(
    base: i128,
    ramp: i128,
    ripple: i128,
    jump: i128,
    place: i128,
    readings: i128,
) -> Option<Signal>
    ensures { option_of (option_map signal_of result) ≡ limited base ramp ripple jump place readings }
{
    let signal = Signal {
        base,
        ramp,
        ripple,
        jump,
        place: u64::try_from(place).ok()?,
        readings: u64::try_from(readings).ok()?,
    };
    if in_limits(signal) {
        Some(signal)
    } else {
        None
    }
}

// Six fields, and nothing after them.
fn fields_at(text: &[u8], at: usize) -> Option<Signal>
    requires { at ≤ length text.now }
    ensures { option_of (option_map signal_of result) ≡ fields_of (drop at text.now) }
{
    let base = part_at(text, at, b'\t')?;
    let ramp = part_at(text, base.next, b'\t')?;
    let ripple = part_at(text, ramp.next, b'\t')?;
    let jump = part_at(text, ripple.next, b'\t')?;
    let place = part_at(text, jump.next, b'\t')?;
    let readings = part_at(text, place.next, b'\n')?;
    if readings.next != text.len() {
        return None;
    }
    signal_of(
        base.value,
        ramp.value,
        ripple.value,
        jump.value,
        place.value,
        readings.value,
    )
}

#[tactic(auto, unfolding(crate::specs::Input::is_signal))]
fn is_signal(t: &[u8]) -> bool
    ensures { result ≡ is_signal t.now }
{
    matches!(t, [b's', b'i', b'g', b'\t', ..])
}

// The rest of the text as the signal line.
pub(crate) fn signal_at(text: &[u8], at: usize) -> Option<Signal>
    requires { at ≤ length text.now }
    ensures { option_of (option_map signal_of result) ≡ signalAt (drop at text.now) }
{
    if !is_signal(&text[at..]) {
        return None;
    }
    fields_at(text, at + 4)
}
