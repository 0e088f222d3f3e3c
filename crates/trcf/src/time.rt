// What the time's five statistics say: they lie after the channels' in the lent list.
ghost use Rattle.std.specs.Prelude.{◌≡◌, cond, ◌+◌, ◌*◌, ◌≤◌, eqb, pos, length};
ghost use Rattle.std.specs.Float.{binary32};
ghost use Rattle.std.specs.Float.Ieee.{mul, div, eq, of_int};
ghost use Rattle.numeric.specs.Narrow.{narrowed};
ghost use Rattle.common.specs.Deviation.{zero64};
ghost use Rattle.trcf.specs.Lists.{last_or};
ghost use Rattle.trcf.specs.Transformer.{deviation_at, zero32, one32};
ghost use Rattle.trcf.specs.Preprocessor.{statistics_length, timescale, timedrift, time_element, drifted};
ghost use Rattle.trcf.specs.Lengths.{where_fits, time_fits};
ghost use Rattle.trcf.specs.View.{settings_of, newest_of, time_base_of};

use crate::feeding::since;
use crate::head::Preprocessor;
use crate::lengths::time_fits;
use crate::shingle::last_of;
use crate::statistics::{mean_at, statistic_at};
use crate::types::is_gap;

pub fn last_time(times: &[u64]) -> u64
    ensures { result ≡ last_or 0 times.now }
{
    last_of(times, times.len())
}

// The mean of the fifth, plus 1.
#[tactic(auto, unfolding(crate::specs::Preprocessor::timescale))]
pub(crate) fn timescale_fitting(head: Preprocessor, s: &[f64]) -> f64
    requires input_length_bound { head.transformer.input_length ≤ 16 }
    requires input_length_in_bounds { statistics_length (settings_of head) ≤ length s.now }
    ensures { result ≡ timescale (settings_of head) s.now }
{
    mean_at(s, 5 * head.transformer.input_length + 4) + 1.0
}

// The same; 0 where the head or the list does not fit.
// Kept: (a) a public function asks nothing of its callers, and what could not fail still cannot, so it answers 0 and no Result.
#[tactic(auto, unfolding(crate::specs::Lengths::where_fits))]
pub fn timescale_of(head: Preprocessor, s: &[f64]) -> f64
    ensures { result ≡ where_fits (time_fits (settings_of head) (length s.now)) (timescale (settings_of head) s.now) zero64 }
{
    if time_fits(head, s.len()) {
        timescale_fitting(head, s)
    } else {
        0.0
    }
}

#[tactic(auto, unfolding(crate::specs::Preprocessor::timedrift))]
pub(crate) fn timedrift_fitting(head: Preprocessor, s: &[f64]) -> f64
    requires input_length_bound { head.transformer.input_length ≤ 16 }
    requires input_length_in_bounds { statistics_length (settings_of head) ≤ length s.now }
    ensures { result ≡ timedrift (settings_of head) s.now }
{
    mean_at(s, 5 * head.transformer.input_length + 3)
}

// The same; 0 where the head or the list does not fit.
// Kept: (a) the 0 for the same reason as in `timescale_of`.
#[tactic(auto, unfolding(crate::specs::Lengths::where_fits))]
pub fn timedrift_of(head: Preprocessor, s: &[f64]) -> f64
    ensures { result ≡ where_fits (time_fits (settings_of head) (length s.now)) (timedrift (settings_of head) s.now) zero64 }
{
    if time_fits(head, s.len()) {
        timedrift_fitting(head, s)
    } else {
        0.0
    }
}

// weight_time × the deviation of the second.
pub(crate) fn time_deviation(head: Preprocessor, s: &[f64]) -> f32
    requires input_length_bound { head.transformer.input_length ≤ 16 }
    requires input_length_in_bounds { statistics_length (settings_of head) ≤ length s.now }
    ensures { result ≡ mul binary32 head.weight_time (narrowed (deviation_at s.now (5 * head.transformer.input_length + 1))) }
{
    let second = statistic_at(s, 5 * head.transformer.input_length + 1, 0.0, 0);
    head.weight_time * numeric::to_f32(second.deviation())
}

// The timescale over weight_time; for weight_time 0 it is multiplied by 0.
pub(crate) fn time_scale(head: Preprocessor, s: &[f64]) -> f32
    requires input_length_bound { head.transformer.input_length ≤ 16 }
    requires input_length_in_bounds { statistics_length (settings_of head) ≤ length s.now }
    ensures { result ≡ mul binary32 (cond (eq head.weight_time zero32) zero32 (div binary32 one32 head.weight_time)) (narrowed (timescale (settings_of head) s.now)) }
{
    let weight = head.weight_time;
    let scale = numeric::to_f32(timescale_fitting(head, s));
    if weight == 0.0 {
        0.0 * scale
    } else {
        1.0 / weight * scale
    }
}

// The newest time, before which none may be learnt.
pub fn newest_of(head: Preprocessor, previous_timestamps: &[u64], initial_timestamps: &[u64]) -> u64
    ensures { result ≡ newest_of head previous_timestamps.now initial_timestamps.now }
{
    let k = head.shingle_size;
    if head.internal_timestamp == 0 {
        return last_of(initial_timestamps, head.initial_len);
    }
    last_of(previous_timestamps, k)
}

// The time that the element of a point and of a transform is counted from.
#[tactic(auto, unfolding(crate::specs::View::time_base_of))]
pub fn time_base(head: Preprocessor, previous_timestamps: &[u64], initial_timestamps: &[u64]) -> u64
    ensures { result ≡ time_base_of head previous_timestamps.now initial_timestamps.now }
{
    if is_gap(head.forest_mode) {
        return newest_of(head, previous_timestamps, initial_timestamps);
    }
    last_of(previous_timestamps, head.shingle_size)
}

// The previous time of a reading: its own while nothing was seen.
pub(crate) fn previous_time(head: Preprocessor, base: u64, timestamp: u64) -> u64
    ensures { result ≡ cond (eqb head.values_seen 0) timestamp base }
{
    if head.values_seen == 0 {
        timestamp
    } else {
        base
    }
}

#[tactic(auto, unfolding(crate::specs::Preprocessor::time_element))]
pub(crate) fn time_element(head: Preprocessor, s: &[f64], timestamp: u64, previous: u64) -> f32
    requires input_length_bound { head.transformer.input_length ≤ 16 }
    requires input_length_in_bounds { statistics_length (settings_of head) ≤ length s.now }
    ensures { result ≡ time_element (settings_of head) s.now timestamp previous }
{
    let weight = numeric::to_f64(head.weight_time);
    let scale = timescale_fitting(head, s);
    if is_gap(head.forest_mode) {
        let gap = numeric::u64_to_f64(since(timestamp, previous));
        return numeric::to_f32(gap * weight / scale);
    }
    let t = numeric::u64_to_f64(timestamp);
    let p = numeric::u64_to_f64(previous);
    numeric::to_f32(t - p * weight / scale)
}

// The newest time with the drift; no drift belongs to a gap.
pub(crate) fn time_shift(head: Preprocessor, s: &[f64], last: u64) -> f32
    requires input_length_bound { head.transformer.input_length ≤ 16 }
    requires input_length_in_bounds { statistics_length (settings_of head) ≤ length s.now }
    ensures { result ≡ drifted binary32 (settings_of head) (of_int binary32 (pos last)) (narrowed (timedrift (settings_of head) s.now)) }
{
    let newest = numeric::u64_to_f32(last);
    if is_gap(head.forest_mode) {
        return newest;
    }
    newest + numeric::to_f32(timedrift_fitting(head, s))
}
