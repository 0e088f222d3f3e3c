// What the calls write to lent output: the channels' numbers and, where the mode has a time element, the time's after them.
ghost use Rattle.std.specs.Prelude.{◌≡◌, [], ◌*◌, ◌≤◌, length};
ghost use Rattle.refusal.specs.Lent.{over};
ghost use Rattle.trcf.specs.Settings.{block};
ghost use Rattle.trcf.specs.Preprocessor.{statistics_length, reading, transformed_after, scale_of, shift_of, deviations};
ghost use Rattle.trcf.specs.Lengths.{where_fits, output_fits, transform_fits};
ghost use Rattle.trcf.specs.Lists.{last_n};
ghost use Rattle.trcf.specs.View.{settings_of, holding, Bounded};

use crate::head::Preprocessor;
use crate::lengths::{output_fits, transform_fits};
use crate::time::{last_time, previous_time, time_deviation, time_element, time_scale, time_shift};
use crate::transformer::{difference_deviations_into, scale_into, shift_into, transform_into};
use crate::types::is_augmented;

// A reading after the newest input, its time counted from `base`.
pub(crate) fn transform_fitting(
    head: Preprocessor,
    s: &[f64],
    inputs: &[f32],
    base: u64,
    input: &[f32],
    timestamp: u64,
    output: &mut [f32],
)
    requires bounded { Bounded (settings_of head) }
    requires s_len { length s.now ≡ statistics_length (settings_of head) }
    requires inputs_len { length inputs.now ≡ head.transformer.input_length * head.shingle_size }
    requires input_len { length input.now ≡ head.transformer.input_length }
    requires head_in_bounds { block (settings_of head) ≤ length output.old }
    ensures { output.new
        ≡ over output.old (transformed_after (settings_of head) s.now head.values_seen (reading (last_n head.transformer.input_length inputs.now) base) (reading input.now timestamp)) }
{
    let t = head.transformer;
    let d = t.input_length;
    let n = inputs.len();
    transform_into(t, s, input, &inputs[n - d..n], output);
    if is_augmented(head.forest_mode) {
        let p = previous_time(head, base, timestamp);
        output[d] = time_element(head, s, timestamp, p);
    }
}

// The same; where a length does not fit, nothing changes.
#[tactic(auto, unfolding(crate::specs::Lengths::where_fits))]
pub fn write_transform(
    head: Preprocessor,
    s: &[f64],
    inputs: &[f32],
    base: u64,
    input: &[f32],
    timestamp: u64,
    output: &mut [f32],
)
    ensures { output.new ≡ where_fits (transform_fits (settings_of head) (length s.now) (length inputs.now) (length input.now) (length output.old))
        (over output.old (transformed_after (settings_of head) s.now head.values_seen (reading (last_n head.transformer.input_length inputs.now) base) (reading input.now timestamp))) output.old }
{
    if transform_fits(head, s.len(), inputs.len(), input.len(), output.len()) {
        transform_fitting(head, s, inputs, base, input, timestamp, output);
    }
}

pub(crate) fn scale_fitting(head: Preprocessor, s: &[f64], output: &mut [f32])
    requires bounded { Bounded (settings_of head) }
    requires s_len { length s.now ≡ statistics_length (settings_of head) }
    requires head_in_bounds { block (settings_of head) ≤ length output.old }
    ensures { output.new ≡ over output.old (scale_of (holding head s.now [] [])) }
{
    let t = head.transformer;
    let d = t.input_length;
    scale_into(t, s, output);
    if is_augmented(head.forest_mode) {
        output[d] = time_scale(head, s);
    }
}

// The same; where a length does not fit, nothing changes.
#[tactic(auto, unfolding(crate::specs::Lengths::where_fits))]
pub fn write_scale(head: Preprocessor, s: &[f64], output: &mut [f32])
    ensures { output.new ≡ where_fits (output_fits (settings_of head) (length s.now) (length output.old)) (over output.old (scale_of (holding head s.now [] []))) output.old }
{
    if output_fits(head, s.len(), output.len()) {
        scale_fitting(head, s, output);
    }
}

pub(crate) fn shift_fitting(head: Preprocessor, s: &[f64], times: &[u64], output: &mut [f32])
    requires bounded { Bounded (settings_of head) }
    requires s_len { length s.now ≡ statistics_length (settings_of head) }
    requires head_in_bounds { block (settings_of head) ≤ length output.old }
    ensures { output.new ≡ over output.old (shift_of (holding head s.now [] times.now)) }
{
    let t = head.transformer;
    let d = t.input_length;
    shift_into(t, s, output);
    if is_augmented(head.forest_mode) {
        output[d] = time_shift(head, s, last_time(times));
    }
}

// The same; where a length does not fit, nothing changes.
#[tactic(auto, unfolding(crate::specs::Lengths::where_fits))]
pub fn write_shift(head: Preprocessor, s: &[f64], times: &[u64], output: &mut [f32])
    ensures { output.new ≡ where_fits (output_fits (settings_of head) (length s.now) (length output.old)) (over output.old (shift_of (holding head s.now [] times.now))) output.old }
{
    if output_fits(head, s.len(), output.len()) {
        shift_fitting(head, s, times, output);
    }
}

pub(crate) fn deviations_fitting(head: Preprocessor, s: &[f64], output: &mut [f32])
    requires bounded { Bounded (settings_of head) }
    requires s_len { length s.now ≡ statistics_length (settings_of head) }
    requires head_in_bounds { block (settings_of head) ≤ length output.old }
    ensures { output.new ≡ over output.old (deviations (holding head s.now [] [])) }
{
    let t = head.transformer;
    let d = t.input_length;
    difference_deviations_into(t, s, output);
    if is_augmented(head.forest_mode) {
        output[d] = time_deviation(head, s);
    }
}

// The same; where a length does not fit, nothing changes.
#[tactic(auto, unfolding(crate::specs::Lengths::where_fits))]
pub fn write_deviations(head: Preprocessor, s: &[f64], output: &mut [f32])
    ensures { output.new ≡ where_fits (output_fits (settings_of head) (length s.now) (length output.old)) (over output.old (deviations (holding head s.now [] []))) output.old }
{
    if output_fits(head, s.len(), output.len()) {
        deviations_fitting(head, s, output);
    }
}
