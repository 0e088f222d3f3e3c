// The calls that change nothing: what a reading would be transformed to, what the statistics say, and what the head holds.
ghost use Rattle.std.specs.Prelude.{◌≡◌};
ghost use Rattle.refusal.specs.Refusal.{row_of};
ghost use Rattle.trcf.specs.Types.{method_number, mode_letter};
ghost use Rattle.trcf.specs.Calls.{transform, scale, shift, status};
ghost use Rattle.trcf.specs.Preprocessor.{reading, transform_of, scale_of, shift_of, deviations};
ghost use Rattle.trcf.specs.View.{lent_by, written, write_of, getters_of, status_given, status_after};
ghost use Rattle.trcf_calls.specs.Getters.{status_of_head};

use refusal::Refusal;
use trcf::head::{LentLists, Preprocessor, Status, get_dimension, head_row, statistics_length};
use trcf::output::{write_deviations, write_scale, write_shift, write_transform};
use trcf::time::time_base;
use trcf::types::{ForestMode, TransformMethod};
use trcf_rows::rows::{is_misfit, transform_row, write_row};

pub fn transform(
    head: Preprocessor,
    lists: LentLists,
    input: &[f32],
    timestamp: u64,
    output: &mut [f32],
) -> Result<(), Refusal>
    ensures { written (row_of result) output.new ≡ write_of head (lent_by lists.entry) (transform input.now timestamp output.old) (transform_of (reading input.now timestamp)) output.old }
{
    transform_row(head, lists, input, timestamp, output)?;
    let d = head.transformer.input_length;
    let k = head.shingle_size;
    let base = time_base(head, lists.previous_timestamps, lists.initial_timestamps);
    write_transform(
        head,
        &lists.statistics[..statistics_length(d)],
        &lists.last_shingled_input[..d * k],
        base,
        input,
        timestamp,
        output,
    );
    Ok(())
}

pub fn scale(head: Preprocessor, lists: LentLists, output: &mut [f32]) -> Result<(), Refusal>
    ensures { written (row_of result) output.new ≡ write_of head (lent_by lists.entry) (scale output.old) scale_of output.old }
{
    write_row(head, lists, output)?;
    let d = head.transformer.input_length;
    write_scale(head, &lists.statistics[..statistics_length(d)], output);
    Ok(())
}

pub fn shift(head: Preprocessor, lists: LentLists, output: &mut [f32]) -> Result<(), Refusal>
    ensures { written (row_of result) output.new ≡ write_of head (lent_by lists.entry) (shift output.old) shift_of output.old }
{
    write_row(head, lists, output)?;
    let d = head.transformer.input_length;
    let k = head.shingle_size;
    write_shift(
        head,
        &lists.statistics[..statistics_length(d)],
        &lists.previous_timestamps[..k],
        output,
    );
    Ok(())
}

pub fn difference_deviations(
    head: Preprocessor,
    lists: LentLists,
    output: &mut [f32],
) -> Result<(), Refusal>
    ensures { written (row_of result) output.new ≡ write_of head (lent_by lists.entry) (status output.old) deviations output.old }
{
    write_row(head, lists, output)?;
    let d = head.transformer.input_length;
    write_deviations(head, &lists.statistics[..statistics_length(d)], output);
    Ok(())
}

// Whether the shingle is full; never of a head that every call refuses.
#[tactic(auto, unfolding(trcf::specs::View::ready_of, trcf::specs::View::own_row))]
pub fn is_ready(head: Preprocessor) -> bool
    ensures { result ≡ (getters_of head).ready }
{
    head_row(head).is_ok() && !is_misfit(head) && head.shingle_size <= head.internal_timestamp
}

pub fn values_seen(head: Preprocessor) -> usize
    ensures { result ≡ (getters_of head).values_seen }
{
    head.values_seen
}

// The number on the panel: how many readings the statistics were fed.
pub fn panel(head: Preprocessor) -> u64
    ensures { result ≡ (getters_of head).panel }
{
    head.transformer.count
}

pub fn internal_timestamp(head: Preprocessor) -> usize
    ensures { result ≡ (getters_of head).internal_timestamp }
{
    head.internal_timestamp
}

pub fn input_dimensions(head: Preprocessor) -> usize
    ensures { result ≡ (getters_of head).input_dimensions }
{
    head.transformer.input_length
}

pub fn shingle_size(head: Preprocessor) -> usize
    ensures { result ≡ (getters_of head).shingle_size }
{
    head.shingle_size
}

pub fn transformation_method(head: Preprocessor) -> TransformMethod
    ensures { method_number result ≡ (getters_of head).method }
{
    head.transformer.transform_method
}

pub fn forest_mode(head: Preprocessor) -> ForestMode
    ensures { mode_letter result ≡ (getters_of head).mode }
{
    head.forest_mode
}

pub fn start_normalization(head: Preprocessor) -> usize
    ensures { result ≡ (getters_of head).start }
{
    head.start_normalization
}

// What the getters say together.
pub fn status_of_head(head: Preprocessor) -> Status
    ensures { result ≡ status_of_head head }
{
    Status {
        values_seen: head.values_seen,
        internal_timestamp: head.internal_timestamp,
        ready: is_ready(head),
        input_dimensions: head.transformer.input_length,
        shingle_size: head.shingle_size,
        dimensions: get_dimension(head),
        transform_method: head.transformer.transform_method,
        forest_mode: head.forest_mode,
        start_normalization: head.start_normalization,
        panel: panel(head),
    }
}

// What the getters say, and the deviations; where it is refused, nothing but why.
pub fn status(head: Preprocessor, lists: LentLists, output: &mut [f32]) -> Result<Status, Refusal>
    ensures { status_given result output.new ≡ status_after head (lent_by lists.entry) output.old }
{
    let deviations = difference_deviations(head, lists, output);
    deviations?;
    Ok(status_of_head(head))
}
