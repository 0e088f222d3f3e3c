// The line of an invert_extrapolation.
use crate::replayed::{LONGEST_FORECAST, LONGEST_TIMES, Replayed};
use ranges::rangevector::RangeVector;
use refusal::row_of;
use trcf::types::is_augmented;
use trcf_forecast::forecast::invert_extrapolation;
use vectors_core::bounded::Bounded;
use vectors_core::fields::{Differs, Fields};

// In STANDARD the three lists become the answer.
fn expect_in_place(
    given: Fields<'_>,
    fields: &mut Fields<'_>,
    row: u64,
    lists: &Bounded<f32, LONGEST_FORECAST>,
) -> Result<(), Differs> {
    lists.expect_changed(given, fields, row)?;
    if row == 0 {
        fields.expect_flag(false)?;
    }
    Ok(())
}

// In a mode with a time element numbers and times are written, and the three lists stay.
fn expect_beside(
    mut given: Fields<'_>,
    fields: &mut Fields<'_>,
    row: u64,
    lists: &Bounded<f32, LONGEST_FORECAST>,
    numbers: &Bounded<f32, LONGEST_FORECAST>,
    times: &Bounded<f64, LONGEST_TIMES>,
) -> Result<(), Differs> {
    lists.expect(&mut given)?;
    numbers.expect_written(fields, row)?;
    if row == 0 {
        fields.expect_flag(true)?;
        times.expect(fields)
    } else {
        times.expect_untouched()
    }
}

pub(crate) fn extrapolation_line(state: &Replayed, given: Fields<'_>) -> Result<(), Differs> {
    let mut fields = given;
    let mut lists = Bounded::<f32, LONGEST_FORECAST>::new();
    lists.read(&mut fields);
    let mut numbers = Bounded::<f32, LONGEST_FORECAST>::new();
    numbers.lend(&mut fields);
    let mut times = Bounded::<f64, LONGEST_TIMES>::new();
    times.lend(&mut fields);
    let answer = invert_extrapolation(
        state.head,
        &state.memory.statistics,
        &state.memory.inputs,
        &state.memory.times,
        &mut RangeVector {
            values: &mut lists.values,
            upper: &mut lists.upper,
            lower: &mut lists.lower,
        },
        &mut RangeVector {
            values: &mut numbers.values,
            upper: &mut numbers.upper,
            lower: &mut numbers.lower,
        },
        &mut RangeVector {
            values: &mut times.values,
            upper: &mut times.upper,
            lower: &mut times.lower,
        },
    );
    let row = row_of(answer);
    if is_augmented(state.head.forest_mode) {
        expect_beside(given, &mut fields, row, &lists, &numbers, &times)?;
    } else {
        expect_in_place(given, &mut fields, row, &lists)?;
    }
    fields.finish()
}
