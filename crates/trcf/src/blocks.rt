// A block of a forecast turned back, each number by what its channel is scaled and shifted by. The running sums of a method that differences are carried in
// the same pass, and no branch stands in the inner loops: that lets the compiler work on several channels at once.
ghost use Rattle.std.specs.Prelude.{◌≡◌, cond, ◌+◌, ◌*◌, ◌≤◌, ◌<◌, pos, length};
ghost use Rattle.std.specs.Float.{binary32};
ghost use Rattle.std.specs.Float.Ieee.{of_int};
ghost use Rattle.ranges.specs.RangeVector.{ranges, held, AreSameLoans};
ghost use Rattle.trcf.specs.Types.{normalizes, differences};
ghost use Rattle.trcf.specs.Steps.Blocks.{places_by, turn_by, drift_place, turn_place, moves, invert_place, Carried};

use crate::types::{TransformMethod, is_differencing, is_none, is_normalizing};
use ranges::rangevector::{Range, RangeVector};

// What each channel is scaled and shifted by in every block.
#[derive(Clone, Copy)]
pub(crate) struct Channels {
    pub(crate) factors: [f32; 16],
    pub(crate) scales: [f32; 16],
    pub(crate) drifts: [f32; 16],
}

// The nearest f32; the machine's own conversion is exact up to 2^24.
fn block_number(i: usize) -> f32
    ensures { result ≡ of_int binary32 (pos i) }
{
    if i <= 16_777_216 {
        i as f32
    } else {
        numeric::u64_to_f32(i as u64)
    }
}

// Whether the last step is a shift: by the mean, or by the value one block before.
fn is_moving(m: TransformMethod) -> bool
    ensures { result ≡ moves m }
{
    !matches!(m, TransformMethod::NONE | TransformMethod::WEIGHTED)
}

fn chosen(b: bool, x: f32, y: f32) -> f32
    ensures { result ≡ cond b x y }
{
    if b { x } else { y }
}

// Number by number, so that no branch is left.
fn chosen_range(b: bool, q: Range<f32>, r: Range<f32>) -> Range<f32>
    ensures { result ≡ cond b q r }
{
    Range {
        value: chosen(b, q.value, r.value),
        upper: chosen(b, q.upper, r.upper),
        lower: chosen(b, q.lower, r.lower),
    }
}

// A number of a weighted channel: scaled, shifted by its block's drift, and by the base last.
fn turn(
    normalizes: bool,
    moves: bool,
    factor: f32,
    scale: f32,
    drift: f32,
    base: f32,
    r: Range<f32>,
) -> Range<f32>
    ensures { result ≡ turn_by normalizes moves factor scale drift base r }
{
    let a = r.scale(factor);
    let e = chosen_range(normalizes, a.scale(scale), a);
    let c = e.shift(drift);
    chosen_range(moves, c.shift(base), c)
}

// NONE: block i of d numbers is shifted by its drift alone.
// Kept: (b) the three lists are parameters, here and of invert_block: through the struct a block first tests that they lie apart, and takes 227 ms for 201.
fn drift_block(
    drifts: &[f32; 16],
    d: usize,
    i: usize,
    values: &mut [f32],
    upper: &mut [f32],
    lower: &mut [f32],
)
    requires d_bound { (d ≤ 16) × (i * d + d ≤ length values.old) }
    requires upper_len { (length upper.old ≡ length values.old) × (length lower.old ≡ length values.old) }
    ensures { ranges values.new upper.new lower.new
        ≡ places_by (drift_place i drifts.now) (i * d) d (ranges values.old upper.old lower.old) }
{
    let b = block_number(i);
    let at = i * d;
    for j in 0..d {
        let p = at + j;
        let r = Range {
            value: values[p],
            upper: upper[p],
            lower: lower[p],
        };
        let q = r.shift(b * drifts[j]);
        values[p] = q.value;
        upper[p] = q.upper;
        lower[p] = q.lower;
    }
}

// Block i of d numbers; where the method carries, its values are what the next block is shifted by.
fn invert_block(
    m: TransformMethod,
    channels: &Channels,
    bases: &mut [f32; 16],
    d: usize,
    i: usize,
    values: &mut [f32],
    upper: &mut [f32],
    lower: &mut [f32],
)
    requires d_bound { (d ≤ 16) × (i * d + d ≤ length values.old) × (length bases.old ≡ 16) }
    requires upper_len { (length upper.old ≡ length values.old) × (length lower.old ≡ length values.old) }
    ensures lower_after { ranges values.new upper.new lower.new
        ≡ places_by (turn_place (normalizes m) (moves m) i channels.now.factors channels.now.scales channels.now.drifts bases.old) (i * d) d
        (ranges values.old upper.old lower.old) }
    ensures carried { Carried (differences m) (i * d) d values.new bases.old bases.new }
{
    let normalizes = is_normalizing(m);
    let moves = is_moving(m);
    let carries = is_differencing(m);
    let b = block_number(i);
    let at = i * d;
    for j in 0..d {
        let p = at + j;
        let x = bases[j];
        let r = Range {
            value: values[p],
            upper: upper[p],
            lower: lower[p],
        };
        let q = turn(
            normalizes,
            moves,
            channels.factors[j],
            channels.scales[j],
            b * channels.drifts[j],
            x,
            r,
        );
        bases[j] = chosen(carries, q.value, x);
        values[p] = q.value;
        upper[p] = q.upper;
        lower[p] = q.lower;
    }
}

// Block i by the method.
pub(crate) fn turn_block(
    m: TransformMethod,
    channels: &Channels,
    bases: &mut [f32; 16],
    d: usize,
    i: usize,
    range: &mut RangeVector<f32>,
)
    requires d_bound { (d ≤ 16) × (i * d + d ≤ length range.old.values.now) × (length bases.old ≡ 16) }
    requires upper_len { (length range.old.upper.now ≡ length range.old.values.now) × (length range.old.lower.now ≡ length range.old.values.now) }
    ensures lower_after { held range.new
        ≡ places_by (invert_place m i channels.now.factors channels.now.scales channels.now.drifts bases.old) (i * d) d (held range.old) }
    ensures carried { Carried (differences m) (i * d) d range.new.values.now bases.old bases.new }
    ensures loans { AreSameLoans range.old range.new }
{
    if is_none(m) {
        drift_block(
            &channels.drifts,
            d,
            i,
            range.values,
            range.upper,
            range.lower,
        );
    } else {
        invert_block(
            m,
            channels,
            bases,
            d,
            i,
            range.values,
            range.upper,
            range.lower,
        );
    }
}
