// A run: a fresh preprocessor of d 1 over memory of its own, and all readings of a signal.
ghost use Rattle.std.specs.Prelude.{◌≡◌, true, [], ◌∷◌};
ghost use Rattle.refusal.specs.Refusal.{row_of};
ghost use Rattle.trcf.specs.View.{settings_from, ready_of};
ghost use Rattle.settling.specs.Settling.{in_limits, keep_larger_if_any, note, pair_row, run_of};
ghost use Rattle.settling.specs.Steps.{signal_of, option_of, noted_by, settled_outcome, track_at};

use crate::signal::{Signal, in_limits, value_at};
use crate::step::step;
use access::rights::every_right;
use refusal::Refusal;
use restart_program::build_arguments;
use trcf::head::{Preprocessor, PreprocessorBuilder, no_head};
use trcf_calls::build::build;
use trcf_rows::rows::settings_row;

// What is noted of a run: the first reading after which the preprocessor is ready, and the largest last element of a point, each if there is one.
#[derive(Clone, Copy)]
pub struct Settled {
    pub ready: Option<u64>,
    pub largest: Option<f32>,
}

// The larger one: a not-a-number is passed over, and of equal ones the first is kept.
fn keep_larger(largest: Option<f32>, last: Option<f32>) -> Option<f32>
    ensures { option_of result ≡ keep_larger_if_any (option_of largest) (option_of last) }
{
    match (largest, last) {
        (Some(y), Some(x)) if y < x => last,
        (None, Some(x)) if x == x => last,
        _ => largest,
    }
}

// The note of reading i.
fn note_reading(s: Settled, i: u64, ready: bool, last: Option<f32>) -> Settled
    ensures { noted_by result ≡ note (noted_by s) i ready (option_of last) }
{
    Settled {
        ready: s.ready.or(ready.then_some(i)),
        largest: keep_larger(s.largest, last),
    }
}

// Rows 1 to 9, and then 23 for d other than 1.
pub fn pair_row(builder: PreprocessorBuilder, weights: &[f32], codes: &[u16]) -> Result<(), Refusal>
    ensures { row_of result ≡ pair_row (settings_from builder weights.now codes.now) }
{
    settings_row(builder, weights, codes)?;
    if builder.input_dimensions != 1 {
        return Err(Refusal::Signal);
    }
    Ok(())
}

// Asked as role 0 of a table with every right.
fn is_ready(head: Preprocessor) -> bool
    ensures { result ≡ ready_of head }
{
    access::getters::is_ready(&every_right(), 0, head).unwrap_or(false)
}

// The readings of a signal, one by one, over memory for d 1, k 64 and start 1,999.
fn readings(builder: PreprocessorBuilder, weight: f32, signal: Signal) -> Settled
    requires { in_limits (signal_of signal) ≡ true }
    ensures { noted_by result ≡ (track_at (settings_from builder (weight ∷ []) (0 ∷ [])) (signal_of signal) signal.readings).noted }
{
    let mut statistics = [0.0f64; 30];
    let mut last_shingled_input = [0.0f32; 64];
    let mut last_shingled_point = [0.0f32; 128];
    let mut previous_timestamps = [0u64; 64];
    let mut initial_values = [0.0f32; 1999];
    let mut initial_timestamps = [0u64; 1999];
    let built = build(
        builder,
        &[weight],
        &[0],
        &mut statistics,
        &mut last_shingled_input,
        &mut last_shingled_point,
        &mut previous_timestamps,
        &initial_values,
        &initial_timestamps,
    );
    let mut head = built.unwrap_or(no_head());
    let mut s = Settled {
        ready: None,
        largest: None,
    };
    for i in 0..signal.readings {
        let t = step(
            head,
            &mut statistics,
            &mut last_shingled_input,
            &mut last_shingled_point,
            &mut previous_timestamps,
            &mut initial_values,
            &mut initial_timestamps,
            value_at(signal, i),
            i,
        );
        head = t.head;
        s = note_reading(s, i, is_ready(head), t.last);
    }
    s
}

// The run of the settings with this weight and code 0 on the signal, or the row that refuses them.
pub fn run(builder: PreprocessorBuilder, weight: f32, signal: Signal) -> Result<Settled, Refusal>
    ensures { settled_outcome result ≡ run_of (settings_from builder (weight ∷ []) (0 ∷ [])) (signal_of signal) }
{
    pair_row(builder, &[weight], &[0])?;
    if !in_limits(signal) {
        return Err(Refusal::Signal);
    }
    // what can be handed over meets what the theorem asks of settings
    build_arguments(builder, &[weight], &[0]);
    Ok(readings(builder, weight, signal))
}
