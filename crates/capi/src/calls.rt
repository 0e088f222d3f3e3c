// The calls that make and change a preprocessor.
// Kept: (a) the C interface hands each list as a pointer and a length.
ghost use Rattle.std.specs.Prelude.{◌≡◌};
ghost use Rattle.trcf.specs.View.{lent, learn_call};
ghost use Rattle.capi.specs.Head.{settings_given};
ghost use Rattle.capi.specs.Calls.{called, build_at, drain_at, point_called, point_at, anomaly_out, learn_called, learn_at, is_set};

use crate::answer::tell_anomaly;
use crate::head::{HEAD_WORDS, open_head, write_counts, write_head};
use crate::words::{kind_row, method_of, mode_of};
use access::calls::{drain, post_process, shingled_point};
use access::rights::{Right, may, may_point};
use refusal::Refusal;
use trcf::head::PreprocessorBuilder;
use trcf_calls::build::build;
use trcf_rows::rows::settings_row;

// A preprocessor from its settings: the head into its words, zeros into the four lists.
#[unsafe(no_mangle)]
pub extern "C" fn veerycouch_build(
    forest_mode: u64,
    transform_method: u64,
    input_dimensions: usize,
    shingle_size: usize,
    start_normalization: usize,
    stop_normalization: usize,
    transform_decay: f64,
    weight_time: f32,
    weights: &[f32],
    codes: &[u16],
    head: &mut [u64],
    statistics: &mut [f64],
    last_shingled_input: &mut [f32],
    last_shingled_point: &mut [f32],
    previous_timestamps: &mut [u64],
    initial_values: &[f32],
    initial_timestamps: &[u64],
) -> u64
    ensures { called result head.new (lent statistics.new last_shingled_input.new last_shingled_point.new previous_timestamps.new initial_values.now initial_timestamps.now)
        ≡ build_at forest_mode transform_method
        (settings_given forest_mode transform_method input_dimensions shingle_size start_normalization stop_normalization transform_decay weight_time weights.now codes.now)
        head.old (lent statistics.old last_shingled_input.old last_shingled_point.old previous_timestamps.old initial_values.now initial_timestamps.now) }
{
    if let Err(refusal) = kind_row(forest_mode, transform_method) {
        return u64::from(refusal);
    }
    let builder = PreprocessorBuilder {
        forest_mode: mode_of(forest_mode),
        transform_method: method_of(transform_method),
        input_dimensions,
        shingle_size,
        start_normalization,
        stop_normalization,
        transform_decay,
        weight_time,
    };
    if let Err(refusal) = settings_row(builder, weights, codes) {
        return u64::from(refusal);
    }
    if head.len() < HEAD_WORDS {
        return u64::from(Refusal::TooShort);
    }
    let built = build(
        builder,
        weights,
        codes,
        statistics,
        last_shingled_input,
        last_shingled_point,
        previous_timestamps,
        initial_values,
        initial_timestamps,
    );
    match built {
        Ok(next) => {
            write_head(head, next);
            0
        }
        Err(refusal) => u64::from(refusal),
    }
}

// The initial values, once they are complete, are fed.
#[unsafe(no_mangle)]
pub extern "C" fn veerycouch_drain(
    table: &[u8],
    role: u64,
    head: &mut [u64],
    statistics: &mut [f64],
    last_shingled_input: &mut [f32],
    last_shingled_point: &mut [f32],
    previous_timestamps: &mut [u64],
    initial_values: &[f32],
    initial_timestamps: &[u64],
) -> u64
    ensures { called result head.new (lent statistics.new last_shingled_input.new last_shingled_point.new previous_timestamps.new initial_values.now initial_timestamps.now)
        ≡ drain_at table.now role head.old (lent statistics.old last_shingled_input.old last_shingled_point.old previous_timestamps.old initial_values.now initial_timestamps.now) }
{
    let before = match open_head(may(table, role, Right::LEARN), head) {
        Ok(before) => before,
        Err(refusal) => return u64::from(refusal),
    };
    let drained = drain(
        table,
        role,
        before,
        statistics,
        last_shingled_input,
        last_shingled_point,
        previous_timestamps,
        initial_values,
        initial_timestamps,
    );
    match drained {
        Ok(next) => {
            write_counts(head, next);
            0
        }
        Err(refusal) => u64::from(refusal),
    }
}

// The shingled point of a reading, where one is given.
#[unsafe(no_mangle)]
pub extern "C" fn veerycouch_shingled_point(
    table: &[u8],
    role: u64,
    head: &mut [u64],
    statistics: &mut [f64],
    last_shingled_input: &mut [f32],
    last_shingled_point: &mut [f32],
    previous_timestamps: &mut [u64],
    initial_values: &[f32],
    initial_timestamps: &[u64],
    input: &[f32],
    timestamp: u64,
    given: &mut u64,
    output: &mut [f32],
) -> u64
    ensures { point_called result head.new (lent statistics.new last_shingled_input.new last_shingled_point.new previous_timestamps.new initial_values.now initial_timestamps.now) given.new output.new
        ≡ point_at table.now role head.old (lent statistics.old last_shingled_input.old last_shingled_point.old previous_timestamps.old initial_values.now initial_timestamps.now)
        input.now timestamp given.old output.old }
{
    let before = match open_head(may_point(table, role), head) {
        Ok(before) => before,
        Err(refusal) => return u64::from(refusal),
    };
    let pointed = shingled_point(
        table,
        role,
        before,
        statistics,
        last_shingled_input,
        last_shingled_point,
        previous_timestamps,
        initial_values,
        initial_timestamps,
        input,
        timestamp,
        output,
    );
    match pointed {
        Ok(p) => {
            write_counts(head, p.head);
            *given = u64::from(p.given);
            0
        }
        Err(refusal) => u64::from(refusal),
    }
}

// A reading is learnt, or waits.
#[unsafe(no_mangle)]
pub extern "C" fn veerycouch_post_process(
    table: &[u8],
    role: u64,
    head: &mut [u64],
    statistics: &mut [f64],
    last_shingled_input: &mut [f32],
    last_shingled_point: &mut [f32],
    previous_timestamps: &mut [u64],
    initial_values: &mut [f32],
    initial_timestamps: &mut [u64],
    input: &[f32],
    timestamp: u64,
    has_y: u64,
    y: &[f32],
    expects: u64,
    expected: &[f32],
    grade: f32,
    relative_index: i32,
    deviations_out: &mut [f32],
    past_out: &mut [f32],
    expected_out: &mut [f32],
    written: &mut u64,
    has_anomaly: &mut u64,
    past_timestamp: &mut u64,
    likelihood: &mut f32,
) -> u64
    ensures { learn_called result head.new (lent statistics.new last_shingled_input.new last_shingled_point.new previous_timestamps.new initial_values.new initial_timestamps.new)
        (anomaly_out written.new has_anomaly.new past_timestamp.new likelihood.new) deviations_out.new past_out.new expected_out.new
        ≡ learn_at table.now role head.old (lent statistics.old last_shingled_input.old last_shingled_point.old previous_timestamps.old initial_values.old initial_timestamps.old)
        (anomaly_out written.old has_anomaly.old past_timestamp.old likelihood.old)
        (learn_call input.now timestamp (is_set has_y) y.now (is_set expects) expected.now grade relative_index deviations_out.old past_out.old expected_out.old) }
{
    let before = match open_head(may(table, role, Right::LEARN), head) {
        Ok(before) => before,
        Err(refusal) => return u64::from(refusal),
    };
    let learnt = post_process(
        table,
        role,
        before,
        statistics,
        last_shingled_input,
        last_shingled_point,
        previous_timestamps,
        initial_values,
        initial_timestamps,
        input,
        timestamp,
        (has_y != 0).then_some(y),
        (expects != 0).then_some(expected),
        grade,
        relative_index,
        deviations_out,
        past_out,
        expected_out,
    );
    match learnt {
        Ok(p) => {
            write_counts(head, p.head);
            *written = u64::from(p.written);
            tell_anomaly(p.anomaly, has_anomaly, past_timestamp, likelihood);
            0
        }
        Err(refusal) => u64::from(refusal),
    }
}
