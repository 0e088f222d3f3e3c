// The point with the transformed reading after it (the source's shingled_point), after what waits is drained.
ghost use Rattle.std.specs.Prelude.{◌≡◌, ◌*◌, ◌≤◌, length, take};
ghost use Rattle.refusal.specs.Lent.{over};
ghost use Rattle.trcf.specs.Settings.{dimension};
ghost use Rattle.trcf.specs.Lists.{last_n, shift_in};
ghost use Rattle.trcf.specs.Preprocessor.{statistics_length, reading, transformed_after};
ghost use Rattle.trcf.specs.View.{settings_of, lent, Bounded, point_outcome, point_after};

use crate::drain::drain_due;
use refusal::Refusal;
use trcf::head::{LentLists, Pointed, Preprocessor, block_of, get_dimension, statistics_length};
use trcf::output::write_transform;
use trcf::shingle::copy_in;
use trcf::time::time_base;
use trcf_rows::rows::{is_waiting, shingled_point_row};

// The point without its front block, and z after it: each number is written once, where it stays.
fn copy_shifted(output: &mut [f32], point: &[f32], z: &[f32])
    requires { (length z.now ≤ length point.now) × (length point.now ≤ length output.old) }
    ensures { output.new ≡ over output.old (shift_in point.now z.now) }
{
    let b = z.len();
    copy_in(output, 0, &point[b..]);
    copy_in(output, point.len() - b, z);
}

// The point with the transformed reading after it, its time counted from `base`.
#[tactic(auto, using(trcf::proofs::LengthLaws::statistics_known, trcf::proofs::LengthLaws::dimension_known, trcf::proofs::BoundLaws::all_inputs))]
pub(crate) fn write_point(
    head: Preprocessor,
    statistics: &[f64],
    last_shingled_input: &[f32],
    last_shingled_point: &[f32],
    base: u64,
    input: &[f32],
    timestamp: u64,
    output: &mut [f32],
)
    requires bounded { Bounded (settings_of head) }
    requires head_in_bounds { statistics_length (settings_of head) ≤ length statistics.now }
    requires shingle_size_in_bounds { head.transformer.input_length * head.shingle_size ≤ length last_shingled_input.now }
    requires head_in_bounds_2 { dimension (settings_of head) ≤ length last_shingled_point.now }
    requires input_len { length input.now ≡ head.transformer.input_length }
    requires head_in_bounds_3 { dimension (settings_of head) ≤ length output.old }
    ensures { output.new ≡ over output.old (shift_in (take (dimension (settings_of head)) last_shingled_point.now)
        (transformed_after (settings_of head) (take (statistics_length (settings_of head)) statistics.now) head.values_seen
        (reading (last_n head.transformer.input_length (take (head.transformer.input_length * head.shingle_size) last_shingled_input.now)) base)
        (reading input.now timestamp))) }
{
    let d = head.transformer.input_length;
    let k = head.shingle_size;
    let b = block_of(head.forest_mode, d);
    let m = get_dimension(head);
    let mut z = [0.0; 17];
    write_transform(
        head,
        &statistics[..statistics_length(d)],
        &last_shingled_input[..d * k],
        base,
        input,
        timestamp,
        &mut z,
    );
    copy_shifted(output, &last_shingled_point[..m], &z[..b]);
}

pub fn shingled_point(
    head: Preprocessor,
    statistics: &mut [f64],
    last_shingled_input: &mut [f32],
    last_shingled_point: &mut [f32],
    previous_timestamps: &mut [u64],
    initial_values: &[f32],
    initial_timestamps: &[u64],
    input: &[f32],
    timestamp: u64,
    output: &mut [f32],
) -> Result<Pointed, Refusal>
    ensures { point_outcome result head
        (lent statistics.new last_shingled_input.new last_shingled_point.new previous_timestamps.new initial_values.now initial_timestamps.now)
        output.new
        ≡ point_after head
        (lent statistics.old last_shingled_input.old last_shingled_point.old previous_timestamps.old initial_values.now initial_timestamps.now)
        input.now timestamp output.old }
{
    let lists = LentLists {
        statistics,
        last_shingled_input,
        last_shingled_point,
        previous_timestamps,
        initial_values,
        initial_timestamps,
    };
    shingled_point_row(head, lists, input, timestamp, output)?;
    if is_waiting(head) {
        return Ok(Pointed { given: false, head });
    }
    // what waits is fed, and never the reading that a point is asked for
    let fed = initial_values;
    let next = drain_due(
        head,
        statistics,
        last_shingled_input,
        last_shingled_point,
        previous_timestamps,
        fed,
        initial_timestamps,
    );
    let base = time_base(next, previous_timestamps, initial_timestamps);
    write_point(
        next,
        statistics,
        last_shingled_input,
        last_shingled_point,
        base,
        input,
        timestamp,
        output,
    );
    Ok(Pointed {
        given: true,
        head: next,
    })
}
