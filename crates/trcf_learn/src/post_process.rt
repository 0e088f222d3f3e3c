// A reading is learnt: it waits, or it comes into the statistics and the shingles (the source's post_process).
ghost use Rattle.std.specs.Prelude.{◌≡◌, true, false, cond, ◌&&◌, [], ◌∷◌, ◌++◌, suc, ◌*◌, ◌≤◌, ◌<◌, ltb, eqb, length, take, is_some, None};
ghost use Rattle.std.specs.Float.Ieee.{lt};
ghost use Rattle.common.specs.Deviation.{count_limit};
ghost use Rattle.refusal.specs.Lent.{over};
ghost use Rattle.trcf.specs.Transformer.{zero32};
ghost use Rattle.trcf.specs.Settings.{block, dimension};
ghost use Rattle.trcf.specs.Preprocessor.{statistics_length, deviations};
ghost use Rattle.trcf.specs.View.{lent, settings_of, holding, counting, learn_call, processed_outcome, learn_after, Bounded};
ghost use Rattle.trcf.specs.Steps.Learning.{learn_parts, learned_parts, answering, Learnable};
ghost use Rattle.trcf_rows.specs.Given.{list_in};

use crate::learn::{hold, update_shingles, write_completing, write_found};
use refusal::Refusal;
use trcf::head::{LentLists, PostProcessed, Preprocessor, statistics_length, with_counts};
use trcf::output::write_deviations;
use trcf_rows::learn_rows::{places_back, post_process_row};
use trcf_rows::rows::is_waiting;

// The reading waits; the deviations are written where it completes start.
fn post_process_waiting(
    head: Preprocessor,
    statistics: &[f64],
    initial_values: &mut [f32],
    initial_timestamps: &mut [u64],
    input: &[f32],
    timestamp: u64,
    deviations_out: &mut [f32],
) -> PostProcessed
    requires bounded { Bounded (settings_of head) }
    requires head_in_bounds { statistics_length (settings_of head) ≤ length statistics.now }
    requires input_len { length input.now ≡ head.transformer.input_length }
    requires initial_len_value { head.initial_len ≡ head.values_seen }
    requires values_seen_bound { head.values_seen < head.start_normalization }
    requires input_length_in_bounds { head.start_normalization * head.transformer.input_length ≤ length initial_values.old }
    requires start_normalization_in_bounds { head.start_normalization ≤ length initial_timestamps.old }
    requires head_in_bounds_2 { eqb (suc head.values_seen) head.start_normalization ≡ true → block (settings_of head) ≤ length deviations_out.old }
    ensures value { result ≡ answering (counting head head.transformer.count (suc head.values_seen) head.internal_timestamp (suc head.initial_len))
        (eqb (suc head.values_seen) head.start_normalization) None }
    ensures initial_values_after { initial_values.new ≡ over initial_values.old (take (head.initial_len * head.transformer.input_length) initial_values.old ++ input.now) }
    ensures initial_timestamps_after { initial_timestamps.new ≡ over initial_timestamps.old (take head.initial_len initial_timestamps.old ++ (timestamp ∷ [])) }
    ensures deviations_out_after { deviations_out.new ≡ cond (eqb (suc head.values_seen) head.start_normalization)
        (over deviations_out.old (deviations (holding head (take (statistics_length (settings_of head)) statistics.now) [] []))) deviations_out.old }
{
    let d = head.transformer.input_length;
    hold(head, initial_values, initial_timestamps, input, timestamp);
    let written = write_completing(head, &statistics[..statistics_length(d)], deviations_out);
    PostProcessed {
        head: Preprocessor {
            values_seen: head.values_seen + 1,
            initial_len: head.initial_len + 1,
            ..head
        },
        written,
        anomaly: None,
    }
}

// The count of readings fed, after a learn.
fn next_count(head: Preprocessor) -> u64
    requires { head.values_seen < head.stop_normalization → head.transformer.count < count_limit }
    ensures { result ≡ cond (ltb head.values_seen head.stop_normalization) (suc head.transformer.count) head.transformer.count }
{
    let count = head.transformer.count;
    if head.values_seen < head.stop_normalization {
        count + 1
    } else {
        count
    }
}

// The anomaly from before the update, the update, and the deviations after it.
#[tactic(auto, using(trcf::proofs::LengthLaws::statistics_known, trcf::proofs::BoundLaws::all_inputs))]
fn post_process_learning(
    head: Preprocessor,
    statistics: &mut [f64],
    last_shingled_input: &mut [f32],
    last_shingled_point: &mut [f32],
    previous_timestamps: &mut [u64],
    input: &[f32],
    timestamp: u64,
    y: &[f32],
    expected: Option<&[f32]>,
    grade: f32,
    back: usize,
    deviations_out: &mut [f32],
    past_out: &mut [f32],
    expected_out: &mut [f32],
) -> PostProcessed
    requires bounded { Bounded (settings_of head) }
    requires head_in_bounds { statistics_length (settings_of head) ≤ length statistics.old }
    requires shingle_size_in_bounds { head.transformer.input_length * head.shingle_size ≤ length last_shingled_input.old }
    requires head_in_bounds_2 { dimension (settings_of head) ≤ length last_shingled_point.old }
    requires shingle_size_in_bounds_2 { head.shingle_size ≤ length previous_timestamps.old }
    requires input_len { length input.now ≡ head.transformer.input_length }
    requires learnable { Learnable head (length y.now) (length (list_in expected)) (is_some expected) grade back (length deviations_out.old) (length past_out.old) (length expected_out.old) }
    ensures { learn_parts result statistics.new last_shingled_input.new last_shingled_point.new previous_timestamps.new deviations_out.new past_out.new expected_out.new
        ≡ learned_parts head statistics.old last_shingled_input.old last_shingled_point.old previous_timestamps.old input.now timestamp y.now
        (list_in expected.entry) (lt zero32 grade && is_some expected.entry) back deviations_out.old past_out.old expected_out.old }
{
    let d = head.transformer.input_length;
    let k = head.shingle_size;
    let anomaly = write_found(
        head,
        &statistics[..statistics_length(d)],
        &last_shingled_input[..d * k],
        &previous_timestamps[..k],
        input,
        expected,
        grade,
        back,
        past_out,
        expected_out,
    );
    update_shingles(
        head,
        statistics,
        last_shingled_input,
        last_shingled_point,
        previous_timestamps,
        input,
        timestamp,
        y,
    );
    write_deviations(head, &statistics[..statistics_length(d)], deviations_out);
    let count = next_count(head);
    PostProcessed {
        head: with_counts(
            head,
            count,
            head.values_seen + 1,
            head.internal_timestamp + 1,
            head.initial_len,
        ),
        written: true,
        anomaly,
    }
}

pub fn post_process(
    head: Preprocessor,
    statistics: &mut [f64],
    last_shingled_input: &mut [f32],
    last_shingled_point: &mut [f32],
    previous_timestamps: &mut [u64],
    initial_values: &mut [f32],
    initial_timestamps: &mut [u64],
    input: &[f32],
    timestamp: u64,
    y: Option<&[f32]>,
    expected: Option<&[f32]>,
    grade: f32,
    relative_index: i32,
    deviations_out: &mut [f32],
    past_out: &mut [f32],
    expected_out: &mut [f32],
) -> Result<PostProcessed, Refusal>
    ensures { processed_outcome result head
        (lent statistics.new last_shingled_input.new last_shingled_point.new previous_timestamps.new initial_values.new initial_timestamps.new)
        deviations_out.new past_out.new expected_out.new
        ≡ learn_after head
        (lent statistics.old last_shingled_input.old last_shingled_point.old previous_timestamps.old initial_values.old initial_timestamps.old)
        (learn_call input.now timestamp (is_some y.entry) (list_in y.entry) (is_some expected.entry) (list_in expected.entry)
        grade relative_index deviations_out.old past_out.old expected_out.old) }
{
    let lists = LentLists {
        statistics,
        last_shingled_input,
        last_shingled_point,
        previous_timestamps,
        initial_values,
        initial_timestamps,
    };
    post_process_row(
        head,
        lists,
        input,
        timestamp,
        y,
        expected,
        grade,
        relative_index,
        deviations_out,
        past_out,
        expected_out,
    )?;
    if is_waiting(head) {
        return Ok(post_process_waiting(
            head,
            statistics,
            initial_values,
            initial_timestamps,
            input,
            timestamp,
            deviations_out,
        ));
    }
    let Some(point) = y else {
        return Ok(PostProcessed {
            head,
            written: false,
            anomaly: None,
        });
    };
    let back = places_back(relative_index);
    Ok(post_process_learning(
        head,
        statistics,
        last_shingled_input,
        last_shingled_point,
        previous_timestamps,
        input,
        timestamp,
        point,
        expected,
        grade,
        back,
        deviations_out,
        past_out,
        expected_out,
    ))
}
