// The calls that write lists and change no state.
// Kept: (a) the C interface hands each list as a pointer and a length.
ghost use Rattle.std.specs.Prelude.{◌≡◌};
ghost use Rattle.ranges.specs.RangeVector.{ranges};
ghost use Rattle.trcf.specs.Calls.{transform, scale, shift, status};
ghost use Rattle.trcf.specs.Preprocessor.{reading, transform_of, scale_of, shift_of, deviations};
ghost use Rattle.trcf.specs.View.{lent, written};
ghost use Rattle.trcf.specs.Extrapolation.{extrapolation, forecast};
ghost use Rattle.snapshot.specs.Save.{save_outcome};
ghost use Rattle.capi.specs.Calls.{write_at, extrapolation_at, save_at};

use crate::head::open_head;
use access::queries::{difference_deviations, invert_extrapolation, scale, shift, transform};
use access::rights::{Right, may};
use access::snapshots::save;
use ranges::rangevector::RangeVector;
use refusal::row_of;
use trcf::head::LentLists;

// A reading, transformed.
#[unsafe(no_mangle)]
pub extern "C" fn veerycouch_transform(
    table: &[u8],
    role: u64,
    head: &[u64],
    statistics: &[f64],
    last_shingled_input: &[f32],
    last_shingled_point: &[f32],
    previous_timestamps: &[u64],
    initial_values: &[f32],
    initial_timestamps: &[u64],
    input: &[f32],
    timestamp: u64,
    output: &mut [f32],
) -> u64
    ensures { written result output.new
        ≡ write_at table.now role head.now (lent statistics.now last_shingled_input.now last_shingled_point.now previous_timestamps.now initial_values.now initial_timestamps.now)
        (transform input.now timestamp output.old) (transform_of (reading input.now timestamp)) output.old }
{
    let before = match open_head(may(table, role, Right::SEE), head) {
        Ok(before) => before,
        Err(refusal) => return u64::from(refusal),
    };
    let lists = LentLists {
        statistics,
        last_shingled_input,
        last_shingled_point,
        previous_timestamps,
        initial_values,
        initial_timestamps,
    };
    row_of(transform(table, role, before, lists, input, timestamp, output))
}

// The scale of each channel.
#[unsafe(no_mangle)]
pub extern "C" fn veerycouch_scale(
    table: &[u8],
    role: u64,
    head: &[u64],
    statistics: &[f64],
    last_shingled_input: &[f32],
    last_shingled_point: &[f32],
    previous_timestamps: &[u64],
    initial_values: &[f32],
    initial_timestamps: &[u64],
    output: &mut [f32],
) -> u64
    ensures { written result output.new
        ≡ write_at table.now role head.now (lent statistics.now last_shingled_input.now last_shingled_point.now previous_timestamps.now initial_values.now initial_timestamps.now)
        (scale output.old) scale_of output.old }
{
    let before = match open_head(may(table, role, Right::SEE), head) {
        Ok(before) => before,
        Err(refusal) => return u64::from(refusal),
    };
    let lists = LentLists {
        statistics,
        last_shingled_input,
        last_shingled_point,
        previous_timestamps,
        initial_values,
        initial_timestamps,
    };
    row_of(scale(table, role, before, lists, output))
}

// The shift of each channel.
#[unsafe(no_mangle)]
pub extern "C" fn veerycouch_shift(
    table: &[u8],
    role: u64,
    head: &[u64],
    statistics: &[f64],
    last_shingled_input: &[f32],
    last_shingled_point: &[f32],
    previous_timestamps: &[u64],
    initial_values: &[f32],
    initial_timestamps: &[u64],
    output: &mut [f32],
) -> u64
    ensures { written result output.new
        ≡ write_at table.now role head.now (lent statistics.now last_shingled_input.now last_shingled_point.now previous_timestamps.now initial_values.now initial_timestamps.now)
        (shift output.old) shift_of output.old }
{
    let before = match open_head(may(table, role, Right::SEE), head) {
        Ok(before) => before,
        Err(refusal) => return u64::from(refusal),
    };
    let lists = LentLists {
        statistics,
        last_shingled_input,
        last_shingled_point,
        previous_timestamps,
        initial_values,
        initial_timestamps,
    };
    row_of(shift(table, role, before, lists, output))
}

// The deviation of the differences of each channel.
#[unsafe(no_mangle)]
pub extern "C" fn veerycouch_difference_deviations(
    table: &[u8],
    role: u64,
    head: &[u64],
    statistics: &[f64],
    last_shingled_input: &[f32],
    last_shingled_point: &[f32],
    previous_timestamps: &[u64],
    initial_values: &[f32],
    initial_timestamps: &[u64],
    output: &mut [f32],
) -> u64
    ensures { written result output.new
        ≡ write_at table.now role head.now (lent statistics.now last_shingled_input.now last_shingled_point.now previous_timestamps.now initial_values.now initial_timestamps.now)
        (status output.old) deviations output.old }
{
    let before = match open_head(may(table, role, Right::SEE), head) {
        Ok(before) => before,
        Err(refusal) => return u64::from(refusal),
    };
    let lists = LentLists {
        statistics,
        last_shingled_input,
        last_shingled_point,
        previous_timestamps,
        initial_values,
        initial_timestamps,
    };
    row_of(difference_deviations(table, role, before, lists, output))
}

// A forecast of shingled points, turned back into readings and times.
#[unsafe(no_mangle)]
pub extern "C" fn veerycouch_invert_extrapolation(
    table: &[u8],
    role: u64,
    head: &[u64],
    statistics: &[f64],
    last_shingled_input: &[f32],
    previous_timestamps: &[u64],
    values: &mut [f32],
    upper: &mut [f32],
    lower: &mut [f32],
    values_out: &mut [f32],
    upper_out: &mut [f32],
    lower_out: &mut [f32],
    times_out: &mut [f64],
    times_upper_out: &mut [f64],
    times_lower_out: &mut [f64],
) -> u64
    ensures { extrapolation result (forecast (ranges values.new upper.new lower.new) (ranges values_out.new upper_out.new lower_out.new) (ranges times_out.new times_upper_out.new times_lower_out.new))
        ≡ extrapolation_at table.now role head.now statistics.now last_shingled_input.now previous_timestamps.now
        (forecast (ranges values.old upper.old lower.old) (ranges values_out.old upper_out.old lower_out.old) (ranges times_out.old times_upper_out.old times_lower_out.old)) }
{
    let before = match open_head(may(table, role, Right::SEE), head) {
        Ok(before) => before,
        Err(refusal) => return u64::from(refusal),
    };
    let mut range = RangeVector {
        values,
        upper,
        lower,
    };
    let mut range_out = RangeVector {
        values: values_out,
        upper: upper_out,
        lower: lower_out,
    };
    let mut times_range = RangeVector {
        values: times_out,
        upper: times_upper_out,
        lower: times_lower_out,
    };
    row_of(invert_extrapolation(
        table,
        role,
        before,
        statistics,
        last_shingled_input,
        previous_timestamps,
        &mut range,
        &mut range_out,
        &mut times_range,
    ))
}

// The text of the preprocessor, and its length.
#[unsafe(no_mangle)]
pub extern "C" fn veerycouch_save(
    table: &[u8],
    role: u64,
    head: &[u64],
    statistics: &[f64],
    last_shingled_input: &[f32],
    last_shingled_point: &[f32],
    previous_timestamps: &[u64],
    initial_values: &[f32],
    initial_timestamps: &[u64],
    length: &mut u64,
    output: &mut [u8],
) -> u64
    ensures { save_outcome result length.new output.new
        ≡ save_at table.now role head.now (lent statistics.now last_shingled_input.now last_shingled_point.now previous_timestamps.now initial_values.now initial_timestamps.now)
        length.old output.old }
{
    let before = match open_head(may(table, role, Right::SAVE), head) {
        Ok(before) => before,
        Err(refusal) => return u64::from(refusal),
    };
    let lists = LentLists {
        statistics,
        last_shingled_input,
        last_shingled_point,
        previous_timestamps,
        initial_values,
        initial_timestamps,
    };
    let saved = save(table, role, before, lists, output);
    match saved {
        Ok(n) => {
            *length = n as u64;
            0
        }
        Err(refusal) => u64::from(refusal),
    }
}
