// Lines whose call changes nothing but its output: transform, scale, shift, the getters.
use crate::replayed::{LONGEST_READING, Replayed};
use refusal::row_of;
use trcf::head::Status;
use trcf_calls::queries::{scale, shift, status, transform};
use vectors_core::fields::{Differs, Fields, expect_untouched};

pub(crate) fn transform_line(state: &Replayed, mut fields: Fields<'_>) -> Result<(), Differs> {
    let time = fields.take_number();
    let input = fields.list::<f32, LONGEST_READING>();
    let mut out = fields.lent::<f32, LONGEST_READING>();
    let answer = transform(state.head, state.lists(), &input, time, &mut out);
    fields.expect_written(row_of(answer), &out)?;
    fields.finish()
}

// `scale` and `shift`.
pub(crate) fn output_line(
    state: &Replayed,
    letter: u8,
    mut fields: Fields<'_>,
) -> Result<(), Differs> {
    let mut out = fields.lent::<f32, LONGEST_READING>();
    let answer = match letter {
        b'c' => scale(state.head, state.lists(), &mut out),
        _ => shift(state.head, state.lists(), &mut out),
    };
    fields.expect_written(row_of(answer), &out)?;
    fields.finish()
}

fn expect_status(fields: &mut Fields<'_>, s: Status) -> Result<(), Differs> {
    fields.expect(s.values_seen as u64)?;
    fields.expect(s.internal_timestamp as u64)?;
    fields.expect_flag(s.ready)?;
    fields.expect(s.input_dimensions as u64)?;
    fields.expect(s.shingle_size as u64)?;
    fields.expect(s.dimensions as u64)?;
    fields.expect(s.start_normalization as u64)?;
    fields.expect(s.panel)
}

pub(crate) fn status_line(state: &Replayed, mut fields: Fields<'_>) -> Result<(), Differs> {
    let mut out = fields.lent::<f32, LONGEST_READING>();
    let answer = status(state.head, state.lists(), &mut out);
    match answer {
        Ok(s) => {
            fields.expect(0u64)?;
            expect_status(&mut fields, s)?;
            fields.expect_list(&out)?;
        }
        Err(refusal) => {
            fields.expect(u64::from(refusal))?;
            expect_untouched(&out)?;
        }
    }
    fields.finish()
}
