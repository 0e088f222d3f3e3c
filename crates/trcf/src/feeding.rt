// A reading is fed to all statistics, the channels' and the time's.
ghost use Rattle.std.specs.Prelude.{◌≡◌, ◌-◌, ◌<◌, length};
ghost use Rattle.common.specs.Deviation.{count_limit};
ghost use Rattle.trcf.specs.Preprocessor.{statistics_length, reading, feed, previous};
ghost use Rattle.trcf.specs.View.{settings_of, Bounded};
ghost use Rattle.trcf.specs.Lengths.{where_fits, feed_fits};

use crate::head::Preprocessor;
use crate::lengths::feed_fits;
use crate::statistics::feed_at;
use crate::transformer::{WeightedTransformer, update_channels};
use common::deviation::next_factor;

// t − p, 0 where the lent times fall.
pub(crate) fn since(t: u64, p: u64) -> u64
    ensures { result ≡ t - p }
{
    if p <= t { t - p } else { 0 }
}

// A reading is fed to all statistics, of which count readings were fed before.
pub(crate) fn feed_fitting(
    head: Preprocessor,
    count: u64,
    s: &mut [f64],
    before: &[f32],
    previous: u64,
    input: &[f32],
    timestamp: u64,
)
    requires bounded { Bounded (settings_of head) }
    requires s_len { length s.old ≡ statistics_length (settings_of head) }
    requires count_lt_count_limit { count < count_limit }
    requires before_len { length before.now ≡ head.transformer.input_length }
    requires input_len { length input.now ≡ head.transformer.input_length }
    ensures { s.new ≡ feed (settings_of head) count s.old (reading before.now previous) (reading input.now timestamp) }
{
    let t = WeightedTransformer {
        count,
        ..head.transformer
    };
    let d = t.input_length;
    let decay = t.transform_decay;
    let f = next_factor(decay, count);
    let g = next_factor(0.1 * decay, count);
    update_channels(t, s, input, before, f, g);
    let x = numeric::u64_to_f64(timestamp);
    let dx = numeric::u64_to_f64(since(timestamp, previous));
    feed_at(s, 5 * d, 1, decay, count, x, dx, f, g);
}

// The same; where the count is spent or a length does not fit, nothing changes.
#[tactic(auto, unfolding(crate::specs::Lengths::where_fits))]
pub fn feed_reading(
    head: Preprocessor,
    count: u64,
    s: &mut [f64],
    before: &[f32],
    previous: u64,
    input: &[f32],
    timestamp: u64,
)
    ensures { s.new ≡ where_fits (feed_fits (settings_of head) count (length s.old) (length before.now) (length input.now))
        (feed (settings_of head) count s.old (reading before.now previous) (reading input.now timestamp)) s.old }
{
    if feed_fits(head, count, s.len(), before.len(), input.len()) {
        feed_fitting(head, count, s, before, previous, input, timestamp);
    }
}
