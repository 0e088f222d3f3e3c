// One reading: it is sent to point, and then to learn with the point given. The program runs as role 0 of a table with every right.
ghost use Rattle.std.specs.Prelude.{◌≡◌, ◌≤◌, is_some};
ghost use Rattle.std.proofs.Math.Option.{none};
ghost use Rattle.std.specs.Float.{nan};
ghost use Rattle.trcf.specs.Lists.{last_or};
ghost use Rattle.trcf.specs.View.{lent, learn_after};
ghost use Rattle.trcf_learn.specs.Given.{list_in};
ghost use Rattle.settling.specs.Steps.{point_length, learning, learned_result, reading_result, reading_result_with, reading_result_of, option_of};

use access::calls::{post_process, shingled_point};
use access::rights::every_right;
use trcf::head::{Pointed, Preprocessor, get_dimension};

// The head after a reading, and the last element of the point, if one was given.
#[derive(Clone, Copy)]
pub(crate) struct Turned {
    pub head: Preprocessor,
    pub last: Option<f32>,
}

// How many numbers a point has: at most 128 where d is 1.
fn point_length(head: Preprocessor) -> usize
    ensures value { result ≡ point_length head }
    ensures upper_bound { result ≤ 128 }
{
    get_dimension(head).min(128)
}

fn last_of(v: &[f32]) -> f32
    ensures { result ≡ last_or nan v.now }
{
    v.last().copied().unwrap_or(f32::NAN)
}

// Learn, grade 0: the one place where the program asks for it.
fn learn(
    head: Preprocessor,
    statistics: &mut [f64],
    last_shingled_input: &mut [f32],
    last_shingled_point: &mut [f32],
    previous_timestamps: &mut [u64],
    initial_values: &mut [f32],
    initial_timestamps: &mut [u64],
    input: &[f32],
    timestamp: u64,
    point: Option<&[f32]>,
) -> Preprocessor
    ensures { reading_result result (lent statistics.new last_shingled_input.new last_shingled_point.new previous_timestamps.new initial_values.new initial_timestamps.new) none
        ≡ learned_result (learn_after head (lent statistics.old last_shingled_input.old last_shingled_point.old previous_timestamps.old initial_values.old initial_timestamps.old)
        (learning input.now timestamp (is_some point.entry) (list_in point.entry))) }
{
    let mut deviations = [0.0f32; 2];
    let mut past = [0.0f32; 1];
    let mut expected = [0.0f32; 1];
    let table = every_right();
    let learnt = post_process(
        &table,
        0,
        head,
        statistics,
        last_shingled_input,
        last_shingled_point,
        previous_timestamps,
        initial_values,
        initial_timestamps,
        input,
        timestamp,
        point,
        None,
        0.0,
        0,
        &mut deviations,
        &mut past,
        &mut expected,
    );
    match learnt {
        Ok(p) => p.head,
        Err(_) => head,
    }
}

// A reading is sent to point, which writes to `point`, and then to learn with the point given.
fn turn_with(
    head: Preprocessor,
    statistics: &mut [f64],
    last_shingled_input: &mut [f32],
    last_shingled_point: &mut [f32],
    previous_timestamps: &mut [u64],
    initial_values: &mut [f32],
    initial_timestamps: &mut [u64],
    input: &[f32],
    timestamp: u64,
    point: &mut [f32],
) -> Turned
    ensures { reading_result result.head (lent statistics.new last_shingled_input.new last_shingled_point.new previous_timestamps.new initial_values.new initial_timestamps.new) (option_of result.last)
        ≡ reading_result_with head
        (lent statistics.old last_shingled_input.old last_shingled_point.old previous_timestamps.old initial_values.old initial_timestamps.old) input.now timestamp point.old }
{
    let table = every_right();
    let answer = shingled_point(
        &table,
        0,
        head,
        statistics,
        last_shingled_input,
        last_shingled_point,
        previous_timestamps,
        initial_values,
        initial_timestamps,
        input,
        timestamp,
        point,
    );
    let p = answer.unwrap_or(Pointed { given: false, head });
    let next = learn(
        p.head,
        statistics,
        last_shingled_input,
        last_shingled_point,
        previous_timestamps,
        initial_values,
        initial_timestamps,
        input,
        timestamp,
        p.given.then_some(&*point),
    );
    Turned {
        head: next,
        last: p.given.then_some(last_of(point)),
    }
}

pub(crate) fn step(
    head: Preprocessor,
    statistics: &mut [f64],
    last_shingled_input: &mut [f32],
    last_shingled_point: &mut [f32],
    previous_timestamps: &mut [u64],
    initial_values: &mut [f32],
    initial_timestamps: &mut [u64],
    value: f32,
    timestamp: u64,
) -> Turned
    ensures { reading_result result.head (lent statistics.new last_shingled_input.new last_shingled_point.new previous_timestamps.new initial_values.new initial_timestamps.new) (option_of result.last)
        ≡ reading_result_of head (lent statistics.old last_shingled_input.old last_shingled_point.old previous_timestamps.old initial_values.old initial_timestamps.old) value timestamp }
{
    let input = [value; 1];
    let mut point = [0.0f32; 128];
    let n = point_length(head);
    turn_with(
        head,
        statistics,
        last_shingled_input,
        last_shingled_point,
        previous_timestamps,
        initial_values,
        initial_timestamps,
        &input,
        timestamp,
        &mut point[..n],
    )
}
