// The made-up signal, and its readings: whole numbers with a sign, each exact as f32.
ghost use Rattle.std.specs.Prelude.{◌≡◌, true, cond, ◌≤◌, leb, pos, ◌*ℤ◌};
ghost use Rattle.settling.specs.Settling.{integer_size, in_limits, counts_in_limits, value_at};
ghost use Rattle.settling.specs.Steps.{signal_of};

use std::num::nearest_i64_to_f32;

// The first four are as wide as every number that a field of a text can hold, and its sign.
#[derive(Clone, Copy, Debug, PartialEq, Eq)]
pub struct Signal {
    pub base: i128,
    pub ramp: i128,
    pub ripple: i128,
    pub jump: i128,
    pub place: u64,
    pub readings: u64,
}

// "The first four are whole numbers of size at most 1,000 …, the place is 0 to 1,000"; "readings n (1 to 1,000)".
pub fn in_limits(g: Signal) -> bool
    ensures { result ≡ in_limits (signal_of g) }
{
    is_small(g.base)
        && is_small(g.ramp)
        && is_small(g.ripple)
        && is_small(g.jump)
        && counts_in_limits(g.place, g.readings)
}

fn is_small(x: i128) -> bool
    ensures { result ≡ leb (integer_size x) 1000 }
{
    -1000 <= x && x <= 1000
}

fn counts_in_limits(place: u64, readings: u64) -> bool
    ensures { result ≡ counts_in_limits place readings }
{
    place <= 1000 && 1 <= readings && readings <= 1000
}

fn times(x: i128, i: u64) -> i128
    requires size_bound { integer_size x ≤ 1000 }
    requires i_bound { i ≤ 1000 }
    ensures value { result ≡ x *ℤ pos i }
    ensures size_bound { integer_size result ≤ 1000000 }
{
    x * i128::from(i)
}

// The number where it is asked for, and 0 elsewhere.
fn only_if(asked: bool, x: i128) -> i128
    ensures value { result ≡ cond asked x (pos 0) }
    ensures size_le_size { integer_size result ≤ integer_size x }
{
    if asked { x } else { 0 }
}

// Reading i.
pub(crate) fn value_at(g: Signal, i: u64) -> f32
    requires g_value { in_limits (signal_of g) ≡ true }
    requires i_bound { i ≤ 1000 }
    ensures { result ≡ value_at (signal_of g) i }
{
    let ripple = only_if(i % 2 == 1, g.ripple);
    let jump = only_if(g.place <= i, g.jump);
    let value = g.base + times(g.ramp, i) + ripple + jump;
    nearest_i64_to_f32(value as i64)
}
