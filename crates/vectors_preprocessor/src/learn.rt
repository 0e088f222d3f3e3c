// The line of a post_process.
use crate::replayed::{LONGEST_READING, Points, Replayed};
use arrayvec::ArrayVec;
use trcf::head::Anomaly;
use trcf_learn::post_process::post_process;
use vectors_core::fields::{Differs, Fields, expect_untouched};

// The arguments of a post_process, with whether the two points are given.
#[derive(Drop)]
struct Given {
    time: u64,
    input: ArrayVec<f32, LONGEST_READING>,
    has_y: bool,
    grade: f32,
    index: i32,
    expects: bool,
}

fn read_given(fields: &mut Fields<'_>, points: &mut Points) -> Given {
    Given {
        time: fields.take_number(),
        input: fields.list(),
        has_y: fields.optional_to(&mut points.y),
        grade: fields.take_number(),
        index: fields.take_number(),
        expects: fields.optional_to(&mut points.expected),
    }
}

// The likelihood does not stand in the line: it is 1.
fn expect_anomaly(
    fields: &mut Fields<'_>,
    anomaly: Option<Anomaly>,
    past: &[f32],
    expected: &[f32],
) -> Result<(), Differs> {
    fields.expect_flag(anomaly.is_some())?;
    match anomaly {
        Some(a) if a.likelihood == 1.0 => {
            fields.expect_list(past)?;
            fields.expect(a.past_timestamp)?;
            fields.expect_list(expected)
        }
        Some(_) => Err(Differs),
        None => {
            expect_untouched(past)?;
            expect_untouched(expected)
        }
    }
}

pub(crate) fn learn_line(state: &mut Replayed, mut fields: Fields<'_>) -> Result<(), Differs> {
    let given = read_given(&mut fields, &mut state.points);
    let mut deviations = fields.lent::<f32, LONGEST_READING>();
    let mut past = fields.lent::<f32, LONGEST_READING>();
    let mut expected = fields.lent::<f32, LONGEST_READING>();
    let answer = post_process(
        state.head,
        &mut state.memory.statistics,
        &mut state.memory.inputs,
        &mut state.memory.point,
        &mut state.memory.times,
        &mut state.memory.initial_values,
        &mut state.memory.initial_timestamps,
        &given.input,
        given.time,
        given.has_y.then_some(state.points.y.as_slice()),
        given.expects.then_some(state.points.expected.as_slice()),
        given.grade,
        given.index,
        &mut deviations,
        &mut past,
        &mut expected,
    );
    match answer {
        Ok(processed) => {
            state.head = processed.head;
            fields.expect(0u64)?;
            fields.expect_given(processed.written, &deviations)?;
            expect_anomaly(&mut fields, processed.anomaly, &past, &expected)?;
        }
        Err(refusal) => {
            fields.expect(u64::from(refusal))?;
            expect_untouched(&deviations)?;
            expect_untouched(&past)?;
            expect_untouched(&expected)?;
        }
    }
    fields.finish()
}
