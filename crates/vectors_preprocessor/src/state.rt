// The lines of the kind preprocessor that hold a state: `q`, which the state must be, and `g`, which it becomes.
use crate::replayed::Replayed;
use vectors_core::fields::{Differs, Fields};

// For each initial value its time and its d numbers.
fn expect_initial(
    fields: &mut Fields<'_>,
    d: usize,
    values: &[f32],
    times: &[u64],
) -> Result<(), Differs> {
    let mut rest = values;
    for time in times {
        let (reading, behind) = rest.split_at_checked(d).ok_or(Differs)?;
        fields.expect(*time)?;
        fields.expect_each(reading)?;
        rest = behind;
    }
    Ok(())
}

// What lies past the lists in use must be as it was before `build`; of the initial values only those that wait count.
pub(crate) fn state_line(state: &Replayed, mut fields: Fields<'_>) -> Result<(), Differs> {
    let head = state.head;
    let memory = &state.memory;
    let waiting = memory
        .initial_timestamps
        .get(..head.initial_len)
        .ok_or(Differs)?;
    fields.expect(head.values_seen as u64)?;
    fields.expect(head.internal_timestamp as u64)?;
    fields.expect(head.transformer.count)?;
    fields.expect_list(&memory.statistics)?;
    fields.expect_list(&memory.inputs)?;
    fields.expect_list(&memory.point)?;
    fields.expect_list(&memory.times)?;
    fields.expect(head.initial_len as u64)?;
    expect_initial(
        &mut fields,
        head.transformer.input_length,
        &memory.initial_values,
        waiting,
    )?;
    fields.finish()
}

// How many initial values there are, to the front of both lists: for each its time and its d numbers. Where there is no room for these they are not read.
fn read_initial(fields: &mut Fields<'_>, d: usize, values: &mut [f32], times: &mut [u64]) -> usize {
    let n = fields.length(times.len());
    for (i, time) in times[..n].iter_mut().enumerate() {
        *time = fields.take_number();
        let from = i.saturating_mul(d);
        let to = from.saturating_add(d);
        if to <= values.len() {
            fields.take_each(&mut values[from..to]);
        } else {
            fields.good = false;
        }
    }
    n
}

pub(crate) fn set_line(state: &mut Replayed, mut fields: Fields<'_>) -> Result<(), Differs> {
    state.head.values_seen = fields.take_number::<u64>() as usize;
    state.head.internal_timestamp = fields.take_number::<u64>() as usize;
    state.head.transformer.count = fields.take_number();
    fields.take_list(&mut state.memory.statistics);
    fields.take_list(&mut state.memory.inputs);
    fields.take_list(&mut state.memory.point);
    fields.take_list(&mut state.memory.times);
    let d = state.head.transformer.input_length;
    state.head.initial_len = read_initial(
        &mut fields,
        d,
        &mut state.memory.initial_values,
        &mut state.memory.initial_timestamps,
    );
    fields.finish()
}
