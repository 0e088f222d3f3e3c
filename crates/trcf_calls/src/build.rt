// A new preprocessor from its settings (the source's Preprocessor::new).
ghost use Rattle.std.specs.Prelude.{◌≡◌, ◌≤◌, length};
ghost use Rattle.trcf.specs.View.{lent, settings_from, head_from, no_head, head_outcome, build_of};

use refusal::Refusal;
use trcf::head::{LentLists, Preprocessor, PreprocessorBuilder, get_dimension, statistics_length};
use trcf::transformer::{WeightedTransformer, padded};
use trcf_rows::rows::{held_row, settings_row};

fn head_from(b: PreprocessorBuilder, weights: &[f32], codes: &[u16]) -> Preprocessor
    requires weights_len_bound { length weights.now ≤ 16 }
    requires codes_len_bound { length codes.now ≤ 16 }
    ensures { result ≡ head_from (settings_from b weights.now codes.now) }
{
    Preprocessor {
        transformer: WeightedTransformer {
            transform_method: b.transform_method,
            input_length: b.input_dimensions,
            transform_decay: b.transform_decay,
            weights: padded(weights, 0.0),
            count: 0,
        },
        forest_mode: b.forest_mode,
        shingle_size: b.shingle_size,
        start_normalization: b.start_normalization,
        stop_normalization: b.stop_normalization,
        weight_time: b.weight_time,
        values_seen: 0,
        internal_timestamp: 0,
        initial_len: 0,
        codes: padded(codes, 0),
    }
}

#[tactic(auto, using(trcf::proofs::LengthLaws::statistics_known))]
pub fn build(
    builder: PreprocessorBuilder,
    weights: &[f32],
    codes: &[u16],
    statistics: &mut [f64],
    last_shingled_input: &mut [f32],
    last_shingled_point: &mut [f32],
    previous_timestamps: &mut [u64],
    initial_values: &[f32],
    initial_timestamps: &[u64],
) -> Result<Preprocessor, Refusal>
    ensures { head_outcome result no_head (lent statistics.new last_shingled_input.new last_shingled_point.new previous_timestamps.new initial_values.now initial_timestamps.now)
        ≡ build_of (settings_from builder weights.now codes.now)
        (lent statistics.old last_shingled_input.old last_shingled_point.old previous_timestamps.old initial_values.now initial_timestamps.now) }
{
    settings_row(builder, weights, codes)?;
    let head = head_from(builder, weights, codes);
    let lists = LentLists {
        statistics,
        last_shingled_input,
        last_shingled_point,
        previous_timestamps,
        initial_values,
        initial_timestamps,
    };
    held_row(head, lists)?;
    let d = builder.input_dimensions;
    let k = builder.shingle_size;
    let n = get_dimension(head);
    statistics[..statistics_length(d)].fill(0.0);
    last_shingled_input[..d * k].fill(0.0);
    last_shingled_point[..n].fill(0.0);
    previous_timestamps[..k].fill(0);
    Ok(head)
}
