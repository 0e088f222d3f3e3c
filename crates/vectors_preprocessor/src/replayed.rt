// Replays a line of the kind preprocessor. The head and six lent lists are carried from line to line.
use crate::build::build_line;
use crate::extrapolation::extrapolation_line;
use crate::learn::learn_line;
use crate::point::{drain_line, point_line};
use crate::queries::{output_line, status_line, transform_line};
use crate::state::{set_line, state_line};
use crate::text::text_line;
use arrayvec::ArrayVec;
use trcf::head::{LentLists, Preprocessor, no_head};
use vectors_core::fields::{Differs, Fields};
use vectors_core::memory::Memory;

// How long a list of a line is at most, and what a line lends: a reading, its weights and its deviations; a point; a forecast; a forecast's times.
pub(crate) const LONGEST_READING: usize = 40;

pub(crate) const LONGEST_POINT: usize = 1200;

pub(crate) const LONGEST_FORECAST: usize = 3300;

pub(crate) const LONGEST_TIMES: usize = 20;

// Room for the initial values of a state.
const INITIAL_VALUES: usize = 32000;

// The two points that a post_process may be given. Their memory is here, so that it need not be cleared for each line.
#[derive(Drop)]
pub(crate) struct Points {
    pub y: ArrayVec<f32, LONGEST_POINT>,
    pub expected: ArrayVec<f32, LONGEST_POINT>,
}

// What is carried from line to line: of the points nothing but their memory.
#[derive(Drop)]
pub(crate) struct Replayed {
    pub head: Preprocessor,
    pub memory: Memory<INITIAL_VALUES>,
    pub points: Points,
}

impl Replayed {
    // Before the first `b`.
    pub(crate) fn new() -> Replayed {
        Replayed {
            head: no_head(),
            memory: Memory::new(),
            points: Points {
                y: ArrayVec::new(),
                expected: ArrayVec::new(),
            },
        }
    }

    // What is lent to a call that writes none of it.
    pub(crate) fn lists(&self) -> LentLists {
        LentLists {
            statistics: &self.memory.statistics,
            last_shingled_input: &self.memory.inputs,
            last_shingled_point: &self.memory.point,
            previous_timestamps: &self.memory.times,
            initial_values: &self.memory.initial_values,
            initial_timestamps: &self.memory.initial_timestamps,
        }
    }
}

pub(crate) fn replay_line(state: &mut Replayed, line: &[u8]) -> Result<(), Differs> {
    let (letter, fields) = Fields::of(line);
    match letter {
        b'b' => build_line(state, fields),
        b'g' => set_line(state, fields),
        b'p' => point_line(state, fields),
        b'l' => learn_line(state, fields),
        b'd' => drain_line(state, fields),
        b't' => transform_line(state, fields),
        b'v' => extrapolation_line(state, fields),
        b'c' | b'h' => output_line(state, letter, fields),
        b's' => status_line(state, fields),
        b'q' => state_line(state, fields),
        b'x' => text_line(state, fields),
        _ => Err(Differs),
    }
}
