// Learning: what post_process does to the lists, and what it writes.
ghost use Rattle.std.specs.Prelude.{◌≡◌, true, cond, ◌&&◌, [], ◌∷◌, ◌++◌, suc, ◌-◌, ◌*◌, ◌≤◌, ◌<◌, ltb, eqb, length, take, get_or, is_some, Some, None};
ghost use Rattle.std.specs.Float.Ieee.{lt};
ghost use Rattle.common.specs.Deviation.{count_limit};
ghost use Rattle.refusal.specs.Lent.{over};
ghost use Rattle.trcf.specs.Lists.{shift_in};
ghost use Rattle.trcf.specs.Transformer.{inverted, zero32, one32};
ghost use Rattle.trcf.specs.Settings.{dimension, block, transformer};
ghost use Rattle.trcf.specs.Preprocessor.{statistics_length, reading, feed, previous, block_from, deviations};
ghost use Rattle.trcf.specs.View.{settings_of, holding, Bounded};
ghost use Rattle.trcf.specs.Steps.Learning.{Exact, Findable};
ghost use Rattle.trcf_rows.specs.Given.{list_in};

use trcf::feeding::feed_reading;
use trcf::head::{Anomaly, Preprocessor, statistics_length};
use trcf::output::write_deviations;
use trcf::shingle::{copy_in, shift_in};
use trcf::time::last_time;
use trcf::transformer::invert_into;

// The reading stands after those that wait.
pub(crate) fn hold(
    head: Preprocessor,
    initial_values: &mut [f32],
    initial_timestamps: &mut [u64],
    input: &[f32],
    timestamp: u64,
)
    requires bounded { Bounded (settings_of head) }
    requires input_len { length input.now ≡ head.transformer.input_length }
    requires initial_len_bound { head.initial_len < head.start_normalization }
    requires input_length_in_bounds { head.start_normalization * head.transformer.input_length ≤ length initial_values.old }
    requires start_normalization_in_bounds { head.start_normalization ≤ length initial_timestamps.old }
    ensures initial_values_after { initial_values.new ≡ over initial_values.old (take (head.initial_len * head.transformer.input_length) initial_values.old ++ input.now) }
    ensures initial_timestamps_after { initial_timestamps.new ≡ over initial_timestamps.old (take head.initial_len initial_timestamps.old ++ (timestamp ∷ [])) }
{
    let n = head.initial_len;
    copy_in(initial_values, n * head.transformer.input_length, input);
    initial_timestamps[n] = timestamp;
}

// The deviations, where the reading completes start.
pub(crate) fn write_completing(head: Preprocessor, s: &[f64], output: &mut [f32]) -> bool
    requires bounded { Bounded (settings_of head) }
    requires s_len { length s.now ≡ statistics_length (settings_of head) }
    requires values_seen_bound { head.values_seen < head.start_normalization }
    requires head_in_bounds { eqb (suc head.values_seen) head.start_normalization ≡ true → block (settings_of head) ≤ length output.old }
    ensures value { result ≡ eqb (suc head.values_seen) head.start_normalization }
    ensures output_after { output.new ≡ cond (eqb (suc head.values_seen) head.start_normalization) (over output.old (deviations (holding head s.now [] []))) output.old }
{
    if head.values_seen + 1 != head.start_normalization {
        return false;
    }
    write_deviations(head, s, output);
    true
}

// Feeds the reading to the statistics, before stop.
pub(crate) fn feed_newest(
    head: Preprocessor,
    s: &mut [f64],
    inputs: &[f32],
    times: &[u64],
    input: &[f32],
    timestamp: u64,
)
    requires bounded { Bounded (settings_of head) }
    requires exact { Exact (settings_of head) (length s.old) (length inputs.now) (length times.now) }
    requires input_len { length input.now ≡ head.transformer.input_length }
    requires count_lt_count_limit { head.values_seen < head.stop_normalization → head.transformer.count < count_limit }
    ensures { s.new ≡ cond (ltb head.values_seen head.stop_normalization)
        (feed (settings_of head) head.transformer.count s.old (previous (holding head s.old inputs.now times.now)) (reading input.now timestamp)) s.old }
{
    if head.values_seen < head.stop_normalization {
        let d = head.transformer.input_length;
        let p = last_time(times);
        feed_reading(
            head,
            head.transformer.count,
            s,
            &inputs[inputs.len() - d..],
            p,
            input,
            timestamp,
        );
    }
}

// `update`, on the lent lists.
#[tactic(auto, using(trcf::proofs::LengthLaws::statistics_known, trcf::proofs::BoundLaws::all_inputs))]
pub(crate) fn update_shingles(
    head: Preprocessor,
    statistics: &mut [f64],
    last_shingled_input: &mut [f32],
    last_shingled_point: &mut [f32],
    previous_timestamps: &mut [u64],
    input: &[f32],
    timestamp: u64,
    y: &[f32],
)
    requires bounded { Bounded (settings_of head) }
    requires head_in_bounds { statistics_length (settings_of head) ≤ length statistics.old }
    requires shingle_size_in_bounds { head.transformer.input_length * head.shingle_size ≤ length last_shingled_input.old }
    requires head_in_bounds_2 { dimension (settings_of head) ≤ length last_shingled_point.old }
    requires shingle_size_in_bounds_2 { head.shingle_size ≤ length previous_timestamps.old }
    requires input_len { length input.now ≡ head.transformer.input_length }
    requires y_len { length y.now ≡ dimension (settings_of head) }
    requires count_lt_count_limit { head.values_seen < head.stop_normalization → head.transformer.count < count_limit }
    ensures statistics_after { statistics.new ≡ over statistics.old (cond (ltb head.values_seen head.stop_normalization)
        (feed (settings_of head) head.transformer.count (take (statistics_length (settings_of head)) statistics.old)
        (previous (holding head (take (statistics_length (settings_of head)) statistics.old)
        (take (head.transformer.input_length * head.shingle_size) last_shingled_input.old) (take head.shingle_size previous_timestamps.old)))
        (reading input.now timestamp))
        (take (statistics_length (settings_of head)) statistics.old)) }
    ensures last_shingled_input_after { last_shingled_input.new
        ≡ over last_shingled_input.old (shift_in (take (head.transformer.input_length * head.shingle_size) last_shingled_input.old) input.now) }
    ensures last_shingled_point_after { last_shingled_point.new ≡ over last_shingled_point.old y.now }
    ensures previous_timestamps_after { previous_timestamps.new ≡ over previous_timestamps.old (shift_in (take head.shingle_size previous_timestamps.old) (timestamp ∷ [])) }
{
    let d = head.transformer.input_length;
    let k = head.shingle_size;
    feed_newest(
        head,
        &mut statistics[..statistics_length(d)],
        &last_shingled_input[..d * k],
        &previous_timestamps[..k],
        input,
        timestamp,
    );
    shift_in(&mut last_shingled_input[..d * k], input);
    copy_in(last_shingled_point, 0, y);
    shift_in(&mut previous_timestamps[..k], &[timestamp]);
}

// The reading itself, or the block after the one that lies back readings before the newest.
fn write_past(head: Preprocessor, inputs: &[f32], input: &[f32], back: usize, output: &mut [f32])
    requires bounded { Bounded (settings_of head) }
    requires inputs_len { length inputs.now ≡ head.transformer.input_length * head.shingle_size }
    requires input_len { length input.now ≡ head.transformer.input_length }
    requires back_bound { back < head.shingle_size }
    requires input_length_in_bounds { head.transformer.input_length ≤ length output.old }
    ensures { output.new ≡ over output.old (cond (eqb back 0) input.now (block_from head.transformer.input_length (head.shingle_size - back) inputs.now)) }
{
    let d = head.transformer.input_length;
    if back == 0 {
        copy_in(output, 0, input);
    } else {
        let at = head.shingle_size - back;
        copy_in(output, 0, &inputs[at * d..at * d + d]);
    }
}

// Past and expected values of an anomaly back readings before the newest; answers the time of the reading before.
pub(crate) fn write_anomaly(
    head: Preprocessor,
    s: &[f64],
    inputs: &[f32],
    times: &[u64],
    input: &[f32],
    expected: &[f32],
    back: usize,
    past_out: &mut [f32],
    expected_out: &mut [f32],
) -> u64
    requires bounded { Bounded (settings_of head) }
    requires exact { Exact (settings_of head) (length s.now) (length inputs.now) (length times.now) }
    requires input_len { length input.now ≡ head.transformer.input_length }
    requires expected_len { length expected.now ≡ dimension (settings_of head) }
    requires back_bound { back < head.shingle_size }
    requires input_length_in_bounds { head.transformer.input_length ≤ length past_out.old }
    requires input_length_in_bounds_2 { head.transformer.input_length ≤ length expected_out.old }
    ensures value { result ≡ get_or times.now (head.shingle_size - 1 - back) 0 }
    ensures past_out_after { past_out.new ≡ over past_out.old (cond (eqb back 0) input.now (block_from head.transformer.input_length (head.shingle_size - back) inputs.now)) }
    ensures expected_out_after { expected_out.new
        ≡ over expected_out.old (inverted (transformer (settings_of head) 0 s.now)
        (block_from head.transformer.input_length (head.shingle_size - 1 - back) expected.now)
        (block_from head.transformer.input_length (head.shingle_size - 1 - back) inputs.now)) }
{
    let d = head.transformer.input_length;
    let b = head.shingle_size - 1 - back;
    write_past(head, inputs, input, back, past_out);
    invert_into(
        head.transformer,
        s,
        &expected[b * d..b * d + d],
        &inputs[b * d..b * d + d],
        expected_out,
    );
    times[b]
}

// The anomaly, where the grade is above 0 and an expected point is given.
pub(crate) fn write_found(
    head: Preprocessor,
    s: &[f64],
    inputs: &[f32],
    times: &[u64],
    input: &[f32],
    expected: Option<&[f32]>,
    grade: f32,
    back: usize,
    past_out: &mut [f32],
    expected_out: &mut [f32],
) -> Option<Anomaly>
    requires bounded { Bounded (settings_of head) }
    requires exact { Exact (settings_of head) (length s.now) (length inputs.now) (length times.now) }
    requires input_len { length input.now ≡ head.transformer.input_length }
    requires findable { (lt zero32 grade && is_some expected) ≡ true → Findable (settings_of head) (length (list_in expected)) back (length past_out.old) (length expected_out.old) }
    ensures value { result ≡ cond (lt zero32 grade && is_some expected.entry) (Some (record { past_timestamp = get_or times.now (head.shingle_size - 1 - back) 0; likelihood = one32 })) None }
    ensures past_out_after { past_out.new ≡ cond (lt zero32 grade && is_some expected.entry)
        (over past_out.old (cond (eqb back 0) input.now (block_from head.transformer.input_length (head.shingle_size - back) inputs.now))) past_out.old }
    ensures expected_out_after { expected_out.new ≡ cond (lt zero32 grade && is_some expected.entry)
        (over expected_out.old (inverted (transformer (settings_of head) 0 s.now)
        (block_from head.transformer.input_length (head.shingle_size - 1 - back) (list_in expected.entry))
        (block_from head.transformer.input_length (head.shingle_size - 1 - back) inputs.now))) expected_out.old }
{
    let point = expected?;
    if grade > 0.0 {
        let past_timestamp = write_anomaly(
            head,
            s,
            inputs,
            times,
            input,
            point,
            back,
            past_out,
            expected_out,
        );
        Some(Anomaly {
            past_timestamp,
            likelihood: 1.0,
        })
    } else {
        None
    }
}
