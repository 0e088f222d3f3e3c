// The calls that may change the trace, for a role that has their rights.
ghost use Rattle.std.specs.Prelude.{◌≡◌, is_some};
ghost use Rattle.trcf.specs.View.{lent, head_outcome, point_outcome, learn_call, processed_outcome};
ghost use Rattle.trcf_learn.specs.Given.{list_in};
ghost use Rattle.access.specs.Entries.{point_by, learn_by, drain_by};

use crate::rights::{Right, demand, demand_point};
use refusal::Refusal;
use trcf::head::{Pointed, PostProcessed, Preprocessor};

// Point may drain, so it needs see and learn.
pub fn shingled_point(
    table: &[u8],
    role: u64,
    head: Preprocessor,
    statistics: &mut [f64],
    last_shingled_input: &mut [f32],
    last_shingled_point: &mut [f32],
    previous_timestamps: &mut [u64],
    initial_values: &[f32],
    initial_timestamps: &[u64],
    input: &[f32],
    timestamp: u64,
    output: &mut [f32],
) -> Result<Pointed, Refusal>
    ensures { point_outcome result head (lent statistics.new last_shingled_input.new last_shingled_point.new previous_timestamps.new initial_values.now initial_timestamps.now) output.new
        ≡ point_by table.now role head (lent statistics.old last_shingled_input.old last_shingled_point.old previous_timestamps.old initial_values.now initial_timestamps.now)
        input.now timestamp output.old }
{
    // Withheld, it tells of no point.
    demand_point(table, role)?;
    trcf_point::point::shingled_point(
        head,
        statistics,
        last_shingled_input,
        last_shingled_point,
        previous_timestamps,
        initial_values,
        initial_timestamps,
        input,
        timestamp,
        output,
    )
}

pub fn post_process(
    table: &[u8],
    role: u64,
    head: Preprocessor,
    statistics: &mut [f64],
    last_shingled_input: &mut [f32],
    last_shingled_point: &mut [f32],
    previous_timestamps: &mut [u64],
    initial_values: &mut [f32],
    initial_timestamps: &mut [u64],
    input: &[f32],
    timestamp: u64,
    y: Option<&[f32]>,
    expected: Option<&[f32]>,
    grade: f32,
    relative_index: i32,
    deviations_out: &mut [f32],
    past_out: &mut [f32],
    expected_out: &mut [f32],
) -> Result<PostProcessed, Refusal>
    ensures { processed_outcome result head (lent statistics.new last_shingled_input.new last_shingled_point.new previous_timestamps.new initial_values.new initial_timestamps.new)
        deviations_out.new past_out.new expected_out.new
        ≡ learn_by table.now role head (lent statistics.old last_shingled_input.old last_shingled_point.old previous_timestamps.old initial_values.old initial_timestamps.old)
        (learn_call input.now timestamp (is_some y.entry) (list_in y.entry) (is_some expected.entry) (list_in expected.entry) grade relative_index deviations_out.old past_out.old expected_out.old) }
{
    // Withheld, it tells of no anomaly.
    demand(table, role, Right::LEARN)?;
    trcf_learn::post_process::post_process(
        head,
        statistics,
        last_shingled_input,
        last_shingled_point,
        previous_timestamps,
        initial_values,
        initial_timestamps,
        input,
        timestamp,
        y,
        expected,
        grade,
        relative_index,
        deviations_out,
        past_out,
        expected_out,
    )
}

pub fn drain(
    table: &[u8],
    role: u64,
    head: Preprocessor,
    statistics: &mut [f64],
    last_shingled_input: &mut [f32],
    last_shingled_point: &mut [f32],
    previous_timestamps: &mut [u64],
    initial_values: &[f32],
    initial_timestamps: &[u64],
) -> Result<Preprocessor, Refusal>
    ensures { head_outcome result head (lent statistics.new last_shingled_input.new last_shingled_point.new previous_timestamps.new initial_values.now initial_timestamps.now)
        ≡ drain_by table.now role head (lent statistics.old last_shingled_input.old last_shingled_point.old previous_timestamps.old initial_values.now initial_timestamps.now) }
{
    demand(table, role, Right::LEARN)?;
    trcf_point::drain::drain(
        head,
        statistics,
        last_shingled_input,
        last_shingled_point,
        previous_timestamps,
        initial_values,
        initial_timestamps,
    )
}
