// The line that begins a list of the kind preprocessor: `build`.
use crate::replayed::{LONGEST_READING, Replayed};
use trcf::head::{PreprocessorBuilder, no_head};
use trcf::types::{method_of_number, mode_of_letter};
use trcf_calls::build::build;
use vectors_core::fields::{Differs, Fields};

// The settings of a line but for the weights and codes.
fn read_settings(fields: &mut Fields<'_>) -> PreprocessorBuilder {
    PreprocessorBuilder {
        forest_mode: mode_of_letter(fields.letter() as u64),
        transform_method: method_of_number(fields.take_number()),
        input_dimensions: fields.take_number::<u64>() as usize,
        shingle_size: fields.take_number::<u64>() as usize,
        start_normalization: fields.take_number::<u64>() as usize,
        stop_normalization: fields.take_number::<u64>() as usize,
        transform_decay: fields.take_number(),
        weight_time: fields.take_number(),
    }
}

// A refused call hands back no head.
pub(crate) fn build_line(state: &mut Replayed, mut fields: Fields<'_>) -> Result<(), Differs> {
    let settings = read_settings(&mut fields);
    let weights = fields.list::<f32, LONGEST_READING>();
    let codes = fields.list::<u16, LONGEST_READING>();
    state.memory.forget_learnt();
    let answer = build(
        settings,
        &weights,
        &codes,
        &mut state.memory.statistics,
        &mut state.memory.inputs,
        &mut state.memory.point,
        &mut state.memory.times,
        &state.memory.initial_values,
        &state.memory.initial_timestamps,
    );
    match answer {
        Ok(head) => {
            state.head = head;
            fields.expect(0u64)?;
        }
        Err(refusal) => {
            state.head = no_head();
            fields.expect(u64::from(refusal))?;
            state.memory.expect_learnt_untouched()?;
        }
    }
    fields.finish()
}
