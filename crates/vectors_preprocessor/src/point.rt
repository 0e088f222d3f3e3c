// The lines of shingled_point and drain.
use crate::replayed::{LONGEST_POINT, LONGEST_READING, Replayed};
use refusal::row_of;
use trcf_point::drain::drain;
use trcf_point::point::shingled_point;
use vectors_core::fields::{Differs, Fields, expect_untouched};

pub(crate) fn point_line(state: &mut Replayed, mut fields: Fields<'_>) -> Result<(), Differs> {
    let time = fields.take_number();
    let input = fields.list::<f32, LONGEST_READING>();
    let mut out = fields.lent::<f32, LONGEST_POINT>();
    let answer = shingled_point(
        state.head,
        &mut state.memory.statistics,
        &mut state.memory.inputs,
        &mut state.memory.point,
        &mut state.memory.times,
        &state.memory.initial_values,
        &state.memory.initial_timestamps,
        &input,
        time,
        &mut out,
    );
    match answer {
        Ok(pointed) => {
            state.head = pointed.head;
            fields.expect(0u64)?;
            fields.expect_given(pointed.given, &out)?;
        }
        Err(refusal) => {
            fields.expect(u64::from(refusal))?;
            expect_untouched(&out)?;
        }
    }
    fields.finish()
}

pub(crate) fn drain_line(state: &mut Replayed, mut fields: Fields<'_>) -> Result<(), Differs> {
    let answer = drain(
        state.head,
        &mut state.memory.statistics,
        &mut state.memory.inputs,
        &mut state.memory.point,
        &mut state.memory.times,
        &state.memory.initial_values,
        &state.memory.initial_timestamps,
    );
    state.head = answer.unwrap_or(state.head);
    fields.expect(row_of(answer.map(|_| ())))?;
    fields.finish()
}
