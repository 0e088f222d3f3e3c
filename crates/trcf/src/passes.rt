// A reading is fed to the channels in passes: first the statistics that need no root of every channel, then all roots, then the two statistics that take them. So the
// roots stand side by side in a list, and none waits for a channel to be written. What comes out is what the channels give one after the other (proofs/PassLaws.antt).
ghost use Rattle.std.specs.Prelude.{◌≡◌, map, ◌+◌, ◌*◌, ◌≤◌, ◌<◌, length};
ghost use Rattle.numeric.specs.Root.{root_of};
ghost use Rattle.common.specs.Deviation.{count_limit, factor_of, step_of};
ghost use Rattle.trcf.specs.Transformer.{statistic_at, slow_decay, channels_fed};
ghost use Rattle.trcf.specs.Steps.Passes.{radicand_of, step_at, first_at, last_at, firsts, radicands, lasts};

use crate::statistics::{put_statistic, statistic_at, step};
use common::deviation::Deviation;

// What the deviation is the root of; 0, which is its own root, where there is nothing to take a root of.
fn radicand(t: Deviation) -> f64
    ensures { result ≡ radicand_of t }
{
    if t.is_empty() {
        return 0.0;
    }
    let m = t.sum / t.weight;
    let v = t.sum_squared / t.weight - m * m;
    if v > 0.0 { v } else { 0.0 }
}

// Feeds x to the statistic at place n of the lent numbers, and answers it.
fn feed_one(s: &mut [f64], n: usize, discount: f64, count: u64, x: f64, f: f64) -> Deviation
    requires n_in_bounds { 3 * n + 3 ≤ length s.old }
    requires count_lt_count_limit { count < count_limit }
    requires f_value { f ≡ factor_of discount count }
    ensures value { result ≡ step_of (statistic_at s.old n discount count) x }
    ensures s_after { s.new ≡ step_at s.old n discount count x }
{
    let t = statistic_at(s, n, discount, count);
    let u = step(t, f, x);
    put_statistic(s, n, u);
    u
}

// The radicands of a channel's first two statistics.
#[derive(Clone, Copy)]
struct Radicands {
    value: f64,
    difference: f64,
}

// Feeds the statistics of channel i that need no root: the value, the difference, and the mean of the differences.
fn feed_first(
    s: &mut [f64],
    i: usize,
    d: usize,
    decay: f64,
    count: u64,
    x: f64,
    dx: f64,
    f: f64,
    g: f64,
) -> Radicands
    requires d_nonzero { 0 < d }
    requires d_in_bounds { 3 * (i + 3 * d) + 3 ≤ length s.old }
    requires count_lt_count_limit { count < count_limit }
    requires f_value { f ≡ factor_of decay count }
    requires g_value { g ≡ factor_of (slow_decay decay) count }
    ensures value_value { result.value ≡ radicand_of (step_of (statistic_at s.old i decay count) x) }
    ensures difference_value { result.difference ≡ radicand_of (step_of (statistic_at s.old (i + d) decay count) dx) }
    ensures s_after { s.new ≡ first_at s.old i d decay count x dx }
{
    let value = feed_one(s, i, decay, count, x, f);
    let difference = feed_one(s, i + d, decay, count, dx, f);
    let mean = difference.mean();
    feed_one(s, i + 3 * d, 0.1 * decay, count, mean, g);
    Radicands {
        value: radicand(value),
        difference: radicand(difference),
    }
}

// Feeds the deviations y and z of channel i's first two statistics to the two that take them.
#[tactic(auto, unfolding(crate::specs::Steps::Passes::last_at))]
fn feed_last(s: &mut [f64], i: usize, d: usize, slow: f64, count: u64, y: f64, z: f64, g: f64)
    requires d_in_bounds { 3 * (i + 4 * d) + 3 ≤ length s.old }
    requires count_lt_count_limit { count < count_limit }
    requires g_value { g ≡ factor_of slow count }
    ensures { s.new ≡ last_at s.old i d slow count y z }
{
    feed_one(s, i + 2 * d, slow, count, y, g);
    feed_one(s, i + 4 * d, slow, count, z, g);
}

// Every channel's statistics that need no root; the radicands of channel i are left at 2i and 2i + 1.
fn first_pass(
    s: &mut [f64],
    a: &mut [f64],
    d: usize,
    decay: f64,
    count: u64,
    input: &[f32],
    previous: &[f32],
    f: f64,
    g: f64,
)
    requires d_bound { (d ≤ 16) × (15 * d ≤ length s.old) × (2 * d ≤ length a.old) }
    requires input_len { (length input.now ≡ d) × (length previous.now ≡ d) }
    requires count_lt_count_limit { count < count_limit }
    requires f_value { f ≡ factor_of decay count }
    requires g_value { g ≡ factor_of (slow_decay decay) count }
    ensures s_after { s.new ≡ firsts d s.old d decay count input.now previous.now }
    ensures a_after { a.new ≡ radicands d a.old s.old d decay count input.now previous.now }
{
    for i in 0..d {
        let x = input[i];
        let dx = x - previous[i];
        let r = feed_first(
            s,
            i,
            d,
            decay,
            count,
            numeric::to_f64(x),
            numeric::to_f64(dx),
            f,
            g,
        );
        a[2 * i] = r.value;
        a[2 * i + 1] = r.difference;
    }
}

// Every channel's statistics that take a root; those of channel i stand at 2i and 2i + 1.
fn last_pass(s: &mut [f64], a: &[f64], d: usize, slow: f64, count: u64, g: f64)
    requires d_bound { (d ≤ 16) × (15 * d ≤ length s.old) × (2 * d ≤ length a.now) }
    requires count_lt_count_limit { count < count_limit }
    requires g_value { g ≡ factor_of slow count }
    ensures { s.new ≡ lasts d s.old d slow count a.now }
{
    for i in 0..d {
        feed_last(s, i, d, slow, count, a[2 * i], a[2 * i + 1], g);
    }
}

// The three passes; `a` holds the radicands and then their roots.
pub(crate) fn feed_channels(
    s: &mut [f64],
    a: &mut [f64],
    d: usize,
    decay: f64,
    count: u64,
    input: &[f32],
    previous: &[f32],
    f: f64,
    g: f64,
)
    requires d_bound { (d ≤ 16) × (15 * d ≤ length s.old) × (2 * d ≤ length a.old) }
    requires input_len { (length input.now ≡ d) × (length previous.now ≡ d) }
    requires count_lt_count_limit { count < count_limit }
    requires f_value { f ≡ factor_of decay count }
    requires g_value { g ≡ factor_of (slow_decay decay) count }
    ensures s_after { s.new ≡ channels_fed d s.old d decay count input.now previous.now }
    ensures a_after { a.new ≡ map root_of (radicands d a.old s.old d decay count input.now previous.now) }
{
    first_pass(s, a, d, decay, count, input, previous, f, g);
    numeric::sqrt_each(a);
    last_pass(s, a, d, 0.1 * decay, count, g);
}
