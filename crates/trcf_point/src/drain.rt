// Draining: the initial values are fed to the statistics and then come into the shingles. The workers' lists are of just the length in use.
ghost use Rattle.std.specs.Prelude.{◌≡◌, false, ◌&&◌, [], ◌∷◌, ◌+◌, ◌-◌, ◌*◌, ◌≤◌, ◌<◌, length, get_or};
ghost use Rattle.common.specs.Deviation.{count_limit};
ghost use Rattle.trcf.specs.Lists.{shift_in};
ghost use Rattle.trcf.specs.Settings.{dimension};
ghost use Rattle.trcf.specs.Calls.{due, drain_full};
ghost use Rattle.trcf.specs.Preprocessor.{statistics_length, feed, feed_all, blocks, previous, transformed_after, drain_each, drain_all, drained, facts};
ghost use Rattle.trcf.specs.View.{settings_of, holding, view, counted, written_over, lent, outcome, head_outcome, Bounded, Ready, drain_of};
ghost use Rattle.trcf.specs.Steps.Learning.{shingling, reading_at, Exact};

use refusal::Refusal;
use trcf::feeding::feed_reading;
use trcf::head::{
    LentLists, Preprocessor, block_of, get_dimension, statistics_length, with_counts,
};
use trcf::output::write_transform;
use trcf::shingle::{copy_in, shift_in};
use trcf::time::last_time;
use trcf_rows::rows::{drain_row, is_due};

// The reading at i is fed after the one before it; the first stands before itself.
fn feed_turn(head: Preprocessor, s: &mut [f64], values: &[f32], stamps: &[u64], i: usize)
    requires bounded { Bounded (settings_of head) }
    requires s_len { length s.old ≡ statistics_length (settings_of head) }
    requires stamps_bound { head.transformer.count + length stamps.now ≤ count_limit }
    requires input_length_in_bounds { length stamps.now * head.transformer.input_length ≤ length values.now }
    requires i_in_bounds { i < length stamps.now }
    ensures { s.new ≡ feed (settings_of head) (head.transformer.count + i) s.old (reading_at head.transformer.input_length values.now stamps.now (i - 1))
        (reading_at head.transformer.input_length values.now stamps.now i) }
{
    let d = head.transformer.input_length;
    let p = i.saturating_sub(1);
    feed_reading(
        head,
        head.transformer.count + i as u64,
        s,
        &values[p * d..p * d + d],
        stamps[p],
        &values[i * d..i * d + d],
        stamps[i],
    );
}

// The first pass: each is fed after the one before it.
fn feed_initial(head: Preprocessor, s: &mut [f64], values: &[f32], stamps: &[u64])
    requires bounded { Bounded (settings_of head) }
    requires s_len { length s.old ≡ statistics_length (settings_of head) }
    requires stamps_bound { head.transformer.count + length stamps.now ≤ count_limit }
    requires input_length_in_bounds { length stamps.now * head.transformer.input_length ≤ length values.now }
    ensures { s.new ≡ feed_all (settings_of head) head.transformer.count s.old (reading_at head.transformer.input_length values.now stamps.now 0)
        (blocks head.transformer.input_length values.now stamps.now) }
{
    for i in 0..stamps.len() {
        feed_turn(head, s, values, stamps, i);
    }
}

// The reading at i comes into the shingles.
fn drain_turn(
    head: Preprocessor,
    s: &[f64],
    inputs: &mut [f32],
    points: &mut [f32],
    times: &mut [u64],
    values: &[f32],
    stamps: &[u64],
    i: usize,
)
    requires bounded { Bounded (settings_of head) }
    requires exact { Exact (settings_of head) (length s.now) (length inputs.old) (length times.old) }
    requires points_len { length points.old ≡ dimension (settings_of head) }
    requires values_len { length values.now ≡ length stamps.now * head.transformer.input_length }
    requires i_in_bounds { i < length stamps.now }
    ensures inputs_after { inputs.new ≡ shift_in inputs.old (reading_at head.transformer.input_length values.now stamps.now i).value }
    ensures points_after { points.new ≡ shift_in points.old
        (transformed_after (settings_of head) s.now head.values_seen (previous (holding head s.now inputs.old times.old))
        (reading_at head.transformer.input_length values.now stamps.now i)) }
    ensures times_after { times.new ≡ shift_in times.old (get_or stamps.now i 0 ∷ []) }
{
    let d = head.transformer.input_length;
    let b = block_of(head.forest_mode, d);
    let y = stamps[i];
    let mut z = [0.0; 17];
    let before = last_time(times);
    write_transform(
        head,
        s,
        inputs,
        before,
        &values[i * d..i * d + d],
        y,
        &mut z,
    );
    shift_in(inputs, &values[i * d..i * d + d]);
    shift_in(points, &z[..b]);
    shift_in(times, &[y]);
}

// Both passes: all of them are fed before any comes into the shingles.
fn drain_each(
    head: Preprocessor,
    s: &mut [f64],
    inputs: &mut [f32],
    points: &mut [f32],
    times: &mut [u64],
    values: &[f32],
    stamps: &[u64],
)
    requires bounded { Bounded (settings_of head) }
    requires exact { Exact (settings_of head) (length s.old) (length inputs.old) (length times.old) }
    requires points_len { length points.old ≡ dimension (settings_of head) }
    requires values_len { length values.now ≡ length stamps.now * head.transformer.input_length }
    requires stamps_bound { head.transformer.count + length stamps.now ≤ count_limit }
    requires stamps_nonzero { 0 < length stamps.now }
    ensures { shingling head (head.transformer.count + length stamps.now) s.new inputs.new points.new times.new (head.internal_timestamp + length stamps.now)
        ≡ drain_each (shingling head (head.transformer.count + length stamps.now)
        (feed_all (settings_of head) head.transformer.count s.old (reading_at head.transformer.input_length values.now stamps.now 0)
        (blocks head.transformer.input_length values.now stamps.now)) inputs.old points.old times.old head.internal_timestamp)
        (blocks head.transformer.input_length values.now stamps.now) }
{
    feed_initial(head, s, values, stamps);
    for i in 0..stamps.len() {
        drain_turn(head, s, inputs, points, times, values, stamps, i);
    }
}

// The first stands before itself, and then both passes.
pub(crate) fn drain_all(
    head: Preprocessor,
    s: &mut [f64],
    inputs: &mut [f32],
    points: &mut [f32],
    times: &mut [u64],
    values: &[f32],
    stamps: &[u64],
)
    requires bounded { Bounded (settings_of head) }
    requires exact { Exact (settings_of head) (length s.old) (length inputs.old) (length times.old) }
    requires points_len { length points.old ≡ dimension (settings_of head) }
    requires values_len { length values.now ≡ length stamps.now * head.transformer.input_length }
    requires stamps_bound { head.transformer.count + length stamps.now ≤ count_limit }
    requires stamps_nonzero { 0 < length stamps.now }
    ensures { shingling head (head.transformer.count + length stamps.now) s.new inputs.new points.new times.new (head.internal_timestamp + length stamps.now)
        ≡ drain_all (shingling head head.transformer.count s.old inputs.old points.old times.old head.internal_timestamp) (blocks head.transformer.input_length values.now stamps.now) }
{
    let d = head.transformer.input_length;
    let n = inputs.len();
    let k = times.len();
    copy_in(inputs, n - d, &values[..d]);
    times[k - 1] = stamps[0];
    drain_each(head, s, inputs, points, times, values, stamps);
}

// Drains where there is something to do; answers the head that is left.
// Inlined by order: a reading for which nothing waits then passes no head through memory, some 50 instructions less.
#[inline(always)]
#[tactic(auto, using(trcf::proofs::LengthLaws::statistics_known, trcf::proofs::LengthLaws::dimension_known, trcf::proofs::BoundLaws::all_inputs))]
pub(crate) fn drain_due(
    head: Preprocessor,
    statistics: &mut [f64],
    last_shingled_input: &mut [f32],
    last_shingled_point: &mut [f32],
    previous_timestamps: &mut [u64],
    initial_values: &[f32],
    initial_timestamps: &[u64],
) -> Preprocessor
    requires ready { Ready head (lent statistics.old last_shingled_input.old last_shingled_point.old previous_timestamps.old initial_values.now initial_timestamps.now) }
    requires initial_timestamps_value { (due (settings_of head)
        (facts (view head (lent statistics.old last_shingled_input.old last_shingled_point.old previous_timestamps.old initial_values.now initial_timestamps.now)))
        && drain_full (settings_of head)
        (facts (view head (lent statistics.old last_shingled_input.old last_shingled_point.old previous_timestamps.old initial_values.now initial_timestamps.now))))
        ≡ false }
    ensures initial_timestamps_after { outcome 0 result
        (lent statistics.new last_shingled_input.new last_shingled_point.new previous_timestamps.new initial_values.now initial_timestamps.now)
        ≡ outcome 0
        (counted head (drained (view head (lent statistics.old last_shingled_input.old last_shingled_point.old previous_timestamps.old initial_values.now initial_timestamps.now))))
        (written_over (drained (view head (lent statistics.old last_shingled_input.old last_shingled_point.old previous_timestamps.old initial_values.now initial_timestamps.now)))
        (lent statistics.old last_shingled_input.old last_shingled_point.old previous_timestamps.old initial_values.now initial_timestamps.now)) }
    ensures initial_timestamps_after_2 { view result
        (lent statistics.new last_shingled_input.new last_shingled_point.new previous_timestamps.new initial_values.now initial_timestamps.now)
        ≡ drained (view head (lent statistics.old last_shingled_input.old last_shingled_point.old previous_timestamps.old initial_values.now initial_timestamps.now)) }
{
    if !is_due(head, initial_timestamps) {
        return head;
    }
    let d = head.transformer.input_length;
    let k = head.shingle_size;
    let n = head.initial_len;
    let m = get_dimension(head);
    drain_all(
        head,
        &mut statistics[..statistics_length(d)],
        &mut last_shingled_input[..d * k],
        &mut last_shingled_point[..m],
        &mut previous_timestamps[..k],
        &initial_values[..n * d],
        &initial_timestamps[..n],
    );
    with_counts(
        head,
        head.transformer.count + n as u64,
        head.values_seen,
        head.internal_timestamp + n,
        0,
    )
}

pub fn drain(
    head: Preprocessor,
    statistics: &mut [f64],
    last_shingled_input: &mut [f32],
    last_shingled_point: &mut [f32],
    previous_timestamps: &mut [u64],
    initial_values: &[f32],
    initial_timestamps: &[u64],
) -> Result<Preprocessor, Refusal>
    ensures { head_outcome result head
        (lent statistics.new last_shingled_input.new last_shingled_point.new previous_timestamps.new initial_values.now initial_timestamps.now)
        ≡ drain_of head (lent statistics.old last_shingled_input.old last_shingled_point.old previous_timestamps.old initial_values.now initial_timestamps.now) }
{
    let lists = LentLists {
        statistics,
        last_shingled_input,
        last_shingled_point,
        previous_timestamps,
        initial_values,
        initial_timestamps,
    };
    drain_row(head, lists)?;
    Ok(drain_due(
        head,
        statistics,
        last_shingled_input,
        last_shingled_point,
        previous_timestamps,
        initial_values,
        initial_timestamps,
    ))
}
