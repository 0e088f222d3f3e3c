// The calls that change nothing, for a role that may see.
ghost use Rattle.std.specs.Prelude.{◌≡◌};
ghost use Rattle.refusal.specs.Refusal.{row_of};
ghost use Rattle.ranges.specs.RangeVector.{held, AreSameLoans};
ghost use Rattle.trcf.specs.Calls.{transform, scale, shift, status};
ghost use Rattle.trcf.specs.Preprocessor.{reading, transform_of, scale_of, shift_of, deviations};
ghost use Rattle.trcf.specs.View.{lent_by, written, status_given};
ghost use Rattle.trcf.specs.Extrapolation.{extrapolation, forecast};
ghost use Rattle.access.specs.Entries.{write_by, extrapolation_by, status_by};

use crate::rights::{Right, demand};
use ranges::rangevector::RangeVector;
use refusal::Refusal;
use trcf::head::{LentLists, Preprocessor, Status};

pub fn transform(
    table: &[u8],
    role: u64,
    head: Preprocessor,
    lists: LentLists,
    input: &[f32],
    timestamp: u64,
    output: &mut [f32],
) -> Result<(), Refusal>
    ensures { written (row_of result) output.new
        ≡ write_by table.now role head (lent_by lists.entry) (transform input.now timestamp output.old) (transform_of (reading input.now timestamp)) output.old }
{
    demand(table, role, Right::SEE)?;
    trcf_calls::queries::transform(head, lists, input, timestamp, output)
}

pub fn scale(
    table: &[u8],
    role: u64,
    head: Preprocessor,
    lists: LentLists,
    output: &mut [f32],
) -> Result<(), Refusal>
    ensures { written (row_of result) output.new ≡ write_by table.now role head (lent_by lists.entry) (scale output.old) scale_of output.old }
{
    demand(table, role, Right::SEE)?;
    trcf_calls::queries::scale(head, lists, output)
}

pub fn shift(
    table: &[u8],
    role: u64,
    head: Preprocessor,
    lists: LentLists,
    output: &mut [f32],
) -> Result<(), Refusal>
    ensures { written (row_of result) output.new ≡ write_by table.now role head (lent_by lists.entry) (shift output.old) shift_of output.old }
{
    demand(table, role, Right::SEE)?;
    trcf_calls::queries::shift(head, lists, output)
}

pub fn difference_deviations(
    table: &[u8],
    role: u64,
    head: Preprocessor,
    lists: LentLists,
    output: &mut [f32],
) -> Result<(), Refusal>
    ensures { written (row_of result) output.new ≡ write_by table.now role head (lent_by lists.entry) (status output.old) deviations output.old }
{
    demand(table, role, Right::SEE)?;
    trcf_calls::queries::difference_deviations(head, lists, output)
}

pub fn invert_extrapolation(
    table: &[u8],
    role: u64,
    head: Preprocessor,
    statistics: &[f64],
    last_shingled_input: &[f32],
    previous_timestamps: &[u64],
    range: &mut RangeVector<f32>,
    range_out: &mut RangeVector<f32>,
    times_out: &mut RangeVector<f64>,
) -> Result<(), Refusal>
    ensures after { extrapolation (row_of result) (forecast (held range.new) (held range_out.new) (held times_out.new))
        ≡ extrapolation_by table.now role head statistics.now last_shingled_input.now previous_timestamps.now
        (forecast (held range.old) (held range_out.old) (held times_out.old)) }
    ensures loans { AreSameLoans range.old range.new × AreSameLoans range_out.old range_out.new × AreSameLoans times_out.old times_out.new }
{
    demand(table, role, Right::SEE)?;
    trcf_forecast::forecast::invert_extrapolation(
        head,
        statistics,
        last_shingled_input,
        previous_timestamps,
        range,
        range_out,
        times_out,
    )
}

pub fn status(
    table: &[u8],
    role: u64,
    head: Preprocessor,
    lists: LentLists,
    output: &mut [f32],
) -> Result<Status, Refusal>
    ensures { status_given result output.new ≡ status_by table.now role head (lent_by lists.entry) output.old }
{
    // Withheld, no number is told.
    demand(table, role, Right::SEE)?;
    trcf_calls::queries::status(head, lists, output)
}
