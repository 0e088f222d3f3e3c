// The five statistics of a channel, or of the time, in the lent list, three numbers each. A time is fed to its five in one pass over a list of records (the
// source's update_timestamps); callers use `feed_at`, whose parameters are plain.
ghost use Rattle.std.specs.Prelude.{◌≡◌, ◌+◌, ◌*◌, ◌≤◌, ◌<◌, length};
ghost use Rattle.common.specs.Deviation.{count_limit, factor_of, step_of};
ghost use Rattle.trcf.specs.Transformer.{statistic_at, put_statistic, deviations_at, put_deviations, slow_decay, fed, mean_at, fed_at};
ghost use Rattle.trcf.specs.Steps.Timestamps.{listed, gathered, IsFactor, Feedable};

use common::deviation::Deviation;

// The five statistics of one channel, or of the time.
#[derive(Clone, Copy)]
pub struct Deviations {
    pub value: Deviation,
    pub difference: Deviation,
    pub deviation: Deviation,
    pub difference_mean: Deviation,
    pub difference_deviation: Deviation,
}

#[tactic(auto, unfolding(crate::specs::Transformer::statistic_at))]
pub(crate) fn statistic_at(s: &[f64], n: usize, discount: f64, count: u64) -> Deviation
    requires { 3 * n + 3 ≤ length s.now }
    ensures { result ≡ statistic_at s.now n discount count }
{
    let at = 3 * n;
    Deviation {
        discount,
        weight: s[at],
        sum_squared: s[at + 2],
        sum: s[at + 1],
        count,
    }
}

#[tactic(auto, unfolding(crate::specs::Transformer::put_statistic))]
pub(crate) fn put_statistic(s: &mut [f64], n: usize, t: Deviation)
    requires { 3 * n + 3 ≤ length s.old }
    ensures { s.new ≡ put_statistic s.old n t }
{
    let at = 3 * n;
    s[at] = t.weight;
    s[at + 1] = t.sum;
    s[at + 2] = t.sum_squared;
}

// The five at the places b, b + w and so on; the last three have a tenth of the decay.
#[tactic(auto, unfolding(crate::specs::Transformer::deviations_at))]
pub(crate) fn deviations_at(s: &[f64], b: usize, w: usize, decay: f64, count: u64) -> Deviations
    requires { 3 * (b + 4 * w) + 3 ≤ length s.now }
    ensures { result ≡ deviations_at s.now b w decay count }
{
    let slow = 0.1 * decay;
    let value = statistic_at(s, b, decay, count);
    let difference = statistic_at(s, b + w, decay, count);
    let deviation = statistic_at(s, b + 2 * w, slow, count);
    let difference_mean = statistic_at(s, b + 3 * w, slow, count);
    let difference_deviation = statistic_at(s, b + 4 * w, slow, count);
    Deviations {
        value,
        difference,
        deviation,
        difference_mean,
        difference_deviation,
    }
}

#[tactic(auto, unfolding(crate::specs::Transformer::put_deviations))]
pub(crate) fn put_deviations(s: &mut [f64], b: usize, w: usize, t: Deviations)
    requires { 3 * (b + 4 * w) + 3 ≤ length s.old }
    ensures { s.new ≡ put_deviations s.old b w t }
{
    let value = t.value;
    let difference = t.difference;
    let deviation = t.deviation;
    let difference_mean = t.difference_mean;
    let difference_deviation = t.difference_deviation;
    put_statistic(s, b, value);
    put_statistic(s, b + w, difference);
    put_statistic(s, b + 2 * w, deviation);
    put_statistic(s, b + 3 * w, difference_mean);
    put_statistic(s, b + 4 * w, difference_deviation);
}

// An update that the count does not refuse, by the statistic's factor.
pub(crate) fn step(t: Deviation, f: f64, x: f64) -> Deviation
    requires count_lt_count_limit { t.count < count_limit }
    requires factor { IsFactor f t }
    ensures { result ≡ step_of t x }
{
    t.update_by(f, x).unwrap_or(t)
}

// f is the factor of the first two and g that of the others.
#[tactic(auto, unfolding(crate::specs::Transformer::fed))]
pub(crate) fn feed(t: Deviations, x: f64, dx: f64, f: f64, g: f64) -> Deviations
    requires { Feedable f g t }
    ensures { result ≡ fed t x dx }
{
    let value = step(t.value, f, x);
    let difference = step(t.difference, f, dx);
    let deviation = step(t.deviation, g, value.deviation());
    let difference_mean = step(t.difference_mean, g, difference.mean());
    let difference_deviation = step(t.difference_deviation, g, difference.deviation());
    Deviations {
        value,
        difference,
        deviation,
        difference_mean,
        difference_deviation,
    }
}

// Each record is read and the five are fed by value; then each is stored back.
// Kept: (a) document 01 names the form: the five time statistics as a lent list of records, updated in one pass. So the five are laid into a list and taken out of it, by
// this function and the three after it.
fn update_timestamps(deviations: &mut [Deviation], x: f64, dx: f64, f: f64, g: f64)
    requires { (length deviations.old ≡ 5) × Feedable f g (gathered deviations.old) }
    ensures { deviations.new ≡ listed (fed (gathered deviations.old) x dx) }
{
    let t = Deviations {
        value: deviations[0],
        difference: deviations[1],
        deviation: deviations[2],
        difference_mean: deviations[3],
        difference_deviation: deviations[4],
    };
    let u = feed(t, x, dx, f, g);
    deviations[0] = u.value;
    deviations[1] = u.difference;
    deviations[2] = u.deviation;
    deviations[3] = u.difference_mean;
    deviations[4] = u.difference_deviation;
}

// Lends the five, for a caller that holds them by value.
fn feed_timestamps(
    mut deviations: [Deviation; 5],
    x: f64,
    dx: f64,
    f: f64,
    g: f64,
) -> [Deviation; 5]
    requires { Feedable f g (gathered deviations) }
    ensures { result ≡ listed (fed (gathered deviations) x dx) }
{
    update_timestamps(&mut deviations, x, dx, f, g);
    deviations
}

fn list(t: Deviations) -> [Deviation; 5]
    ensures { result ≡ listed t }
{
    let value = t.value;
    let difference = t.difference;
    let deviation = t.deviation;
    let difference_mean = t.difference_mean;
    let difference_deviation = t.difference_deviation;
    [
        value,
        difference,
        deviation,
        difference_mean,
        difference_deviation,
    ]
}

fn gather(deviations: [Deviation; 5]) -> Deviations
    ensures { result ≡ gathered deviations }
{
    let value = deviations[0];
    let difference = deviations[1];
    let deviation = deviations[2];
    let difference_mean = deviations[3];
    let difference_deviation = deviations[4];
    Deviations {
        value,
        difference,
        deviation,
        difference_mean,
        difference_deviation,
    }
}

// Feeds the five at the places b, b + w and so on of the lent numbers: what every path that feeds time calls; the channels' are fed in passes
// (src/passes.rt). f and g are the factors of the decay and of a
// tenth of it: all statistics of a state have one count, so a reading needs no more than these two.
pub(crate) fn feed_at(
    s: &mut [f64],
    b: usize,
    w: usize,
    decay: f64,
    count: u64,
    x: f64,
    dx: f64,
    f: f64,
    g: f64,
)
    requires w_in_bounds { 3 * (b + 4 * w) + 3 ≤ length s.old }
    requires count_lt_count_limit { count < count_limit }
    requires f_value { f ≡ factor_of decay count }
    requires g_value { g ≡ factor_of (slow_decay decay) count }
    ensures { s.new ≡ fed_at s.old b w decay count x dx }
{
    let t = deviations_at(s, b, w, decay, count);
    let l = list(t);
    let u = feed_timestamps(l, x, dx, f, g);
    let v = gather(u);
    put_deviations(s, b, w, v);
}

pub(crate) fn mean_at(s: &[f64], n: usize) -> f64
    requires { 3 * n + 3 ≤ length s.now }
    ensures { result ≡ mean_at s.now n }
{
    statistic_at(s, n, 0.0, 0).mean()
}
