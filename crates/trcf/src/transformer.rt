// The transform of a reading, channel by channel (the source's trcf/transformer.rs). The statistics lie in a lent list, three numbers each.
ghost use Rattle.std.specs.Prelude.{◌≡◌, false, cond, not, ◌&&◌, [], ◌∷◌, ◌+◌, ◌*◌, ◌≤◌, ◌<◌, length, eqb, ltb, get_or, replicate, OnOk};
ghost use Rattle.std.specs.Float.{nan, binary32, binary64};
ghost use Rattle.std.specs.Float.Ieee.{add, mul};
ghost use Rattle.numeric.specs.Narrow.{narrowed};
ghost use Rattle.refusal.specs.Refusal.{row_of, first_of};
ghost use Rattle.refusal.specs.Lent.{over};
ghost use Rattle.common.specs.Deviation.{zero64, one64, count_limit, outside_unit, factor_of};
ghost use Rattle.ranges.specs.RangeVector.{held, AreSameLoans, range_outcome, unblocked};
ghost use Rattle.trcf.specs.Types.{is_none, normalizes, differences, centres};
ghost use Rattle.trcf.specs.Settings.{all_one, input_limit};
ghost use Rattle.trcf.specs.Transformer.{zero32, slow_decay, updated, mean_at, weight_at, normalized_scale, transform_by, transformed, unweighted, invert_by, inverted, reciprocal};
ghost use Rattle.trcf.specs.Transformer.{inverted_forecast, scales, shifts, difference_deviations};
ghost use Rattle.trcf.specs.Lengths.{where_fits, within, passes};
ghost use Rattle.trcf.specs.TransformerCalls.{transformer_view, no_transformer, made_from, transformer_output, new_row, update_row, transform_row, output_row, forecast_row};
ghost use Rattle.trcf.specs.TransformerCalls.{transformer_new, transformer_update, transformer_transform, transformer_invert, transformer_invert_forecast, transformer_scale};
ghost use Rattle.trcf.specs.TransformerCalls.{transformer_shift, transformer_difference_deviations};
ghost use Rattle.trcf.specs.Steps.Sound.{Sound};
ghost use Rattle.trcf.specs.Steps.Blocks.{FactorsIn};

use crate::blocks::{Channels, turn_block};
use crate::passes::feed_channels;
use crate::shingle::copy_in;
use crate::statistics::mean_at;
use crate::types::{
    INPUT_LIMIT, TransformMethod, is_centring, is_differencing, is_none, is_normalizing,
};
use common::deviation::{COUNT_LIMIT, Deviation, next_factor};
use ranges::rangevector::{RangeVector, is_unblocked};
use refusal::Refusal;

// The settings of a transform and how many readings the statistics were fed; the first `input_length` weights count.
// Kept: (a) no heap and fixed memory, so the weights stand in an array, with the number of those in use beside.
#[derive(Clone, Copy)]
pub struct WeightedTransformer {
    pub transform_method: TransformMethod,
    pub input_length: usize,
    pub transform_decay: f64,
    pub weights: [f32; 16],
    pub count: u64,
}

// Each channel's five statistics are fed its reading and its difference from the one before, by the factors of the decay and of a tenth of it.
#[tactic(auto, unfolding(crate::specs::Transformer::updated))]
pub(crate) fn update_channels(
    t: WeightedTransformer,
    s: &mut [f64],
    input: &[f32],
    previous: &[f32],
    f: f64,
    g: f64,
)
    requires sound { Sound t (length s.old) }
    requires count_lt_count_limit { t.count < count_limit }
    requires input_len { length input.now ≡ t.input_length }
    requires previous_len { length previous.now ≡ t.input_length }
    requires f_value { f ≡ factor_of t.transform_decay t.count }
    requires g_value { g ≡ factor_of (slow_decay t.transform_decay) t.count }
    ensures { s.new ≡ updated (transformer_view t s.old) input.now previous.now }
{
    let d = t.input_length;
    let decay = t.transform_decay;
    let count = t.count;
    let mut a = [0.0f64; 32];
    feed_channels(s, &mut a[..2 * d], d, decay, count, input, previous, f, g);
}

fn narrow_mean_at(s: &[f64], n: usize) -> f32
    requires { 3 * n + 3 ≤ length s.now }
    ensures { result ≡ narrowed (mean_at s.now n) }
{
    numeric::to_f32(mean_at(s, n))
}

// The mean of the third statistic, plus 1.
fn normalized_scale(s: &[f64], d: usize, i: usize) -> f32
    requires { 3 * (i + 2 * d) + 3 ≤ length s.now }
    ensures { result ≡ narrowed (add binary64 (mean_at s.now (i + 2 * d)) one64) }
{
    numeric::to_f32(mean_at(s, i + 2 * d) + 1.0)
}

// One channel's reading x, after p. The weight is handed over beside the transformer, so that no list of weights is copied for a channel.
#[tactic(auto, unfolding(crate::specs::Transformer::basic_shift, crate::specs::Transformer::normalized_scale))]
fn transform_at(t: WeightedTransformer, w: f32, s: &[f64], i: usize, x: f32, p: f32) -> f32
    requires sound { Sound t (length s.now) }
    requires i_bound { i < t.input_length }
    requires w_value { w ≡ weight_at (transformer_view t s.now) i }
    ensures { result ≡ transform_by t.transform_method (transformer_view t s.now) i x p }
{
    let d = t.input_length;
    let m = t.transform_method;
    match m {
        TransformMethod::NONE => x,
        TransformMethod::WEIGHTED => x * w,
        TransformMethod::DIFFERENCE => x - p,
        TransformMethod::SUBTRACT_MA => x - narrow_mean_at(s, i),
        TransformMethod::NORMALIZE => { (x - narrow_mean_at(s, i)) / normalized_scale(s, d, i) }
        TransformMethod::NORMALIZE_DIFFERENCE => (x - p) / normalized_scale(s, d, i),
    }
}

#[tactic(auto, using(crate::proofs::TransformerLaws::weight_at_view))]
pub(crate) fn transform_into(
    t: WeightedTransformer,
    s: &[f64],
    input: &[f32],
    previous: &[f32],
    output: &mut [f32],
)
    requires sound { Sound t (length s.now) }
    requires input_len { length input.now ≡ t.input_length }
    requires previous_len { length previous.now ≡ t.input_length }
    requires input_length_in_bounds { t.input_length ≤ length output.old }
    ensures { output.new ≡ over output.old (transformed (transformer_view t s.now) input.now previous.now) }
{
    let d = t.input_length;
    for i in 0..d {
        let w = t.weights[i];
        output[i] = transform_at(t, w, s, i, input[i], previous[i]);
    }
}

// Divided by the weight; by 0 it gives 0.
#[tactic(auto, unfolding(crate::specs::Transformer::unweighted))]
fn unweigh(w: f32, x: f32) -> f32
    ensures { result ≡ unweighted w x }
{
    if w == 0.0 { 0.0 } else { x / w }
}

// One channel's x, after p, once it was divided by the weight.
#[tactic(auto, using(crate::proofs::TransformerLaws::weight_at_view), unfolding(crate::specs::Transformer::basic_shift, crate::specs::Transformer::normalized_scale))]
fn invert_at(t: WeightedTransformer, s: &[f64], i: usize, x: f32, p: f32) -> f32
    requires sound { Sound t (length s.now) }
    requires i_bound { i < t.input_length }
    ensures { result ≡ invert_by t.transform_method (transformer_view t s.now) i x p }
{
    let d = t.input_length;
    let m = t.transform_method;
    match m {
        TransformMethod::NONE => x,
        TransformMethod::WEIGHTED => unweigh(t.weights[i], x),
        TransformMethod::DIFFERENCE => x + p,
        TransformMethod::SUBTRACT_MA => x + narrow_mean_at(s, i),
        TransformMethod::NORMALIZE => { x * normalized_scale(s, d, i) + narrow_mean_at(s, i) }
        TransformMethod::NORMALIZE_DIFFERENCE => x * normalized_scale(s, d, i) + p,
    }
}

pub(crate) fn invert_fitting(
    t: WeightedTransformer,
    s: &[f64],
    input: &[f32],
    previous: &[f32],
    output: &mut [f32],
)
    requires sound { Sound t (length s.now) }
    requires input_len { length input.now ≡ t.input_length }
    requires previous_len { length previous.now ≡ t.input_length }
    requires input_length_in_bounds { t.input_length ≤ length output.old }
    ensures { output.new ≡ over output.old (inverted (transformer_view t s.now) input.now previous.now) }
{
    let d = t.input_length;
    for i in 0..d {
        let x = unweigh(t.weights[i], input[i]);
        output[i] = invert_at(t, s, i, x, previous[i]);
    }
}

#[tactic(auto, using(crate::proofs::TransformerLaws::weight_at_view), unfolding(crate::specs::Transformer::normalized_scale))]
fn scale_at(t: WeightedTransformer, s: &[f64], i: usize) -> f32
    requires sound { Sound t (length s.now) }
    requires i_bound { i < t.input_length }
    ensures { result
        ≡ cond (normalizes t.transform_method) (mul binary32 (weight_at (transformer_view t s.now) i) (normalized_scale (transformer_view t s.now) i)) (weight_at (transformer_view t s.now) i) }
{
    let d = t.input_length;
    let w = t.weights[i];
    if is_normalizing(t.transform_method) {
        w * normalized_scale(s, d, i)
    } else {
        w
    }
}

pub(crate) fn scale_into(t: WeightedTransformer, s: &[f64], output: &mut [f32])
    requires sound { Sound t (length s.now) }
    requires input_length_in_bounds { t.input_length ≤ length output.old }
    ensures { output.new ≡ over output.old (scales (transformer_view t s.now)) }
{
    let d = t.input_length;
    for i in 0..d {
        output[i] = scale_at(t, s, i);
    }
}

// The source adds to a 0, so -0 becomes 0.
fn shift_at(m: TransformMethod, s: &[f64], i: usize) -> f32
    requires { 3 * i + 3 ≤ length s.now }
    ensures { result ≡ cond (centres m) (add binary32 zero32 (narrowed (mean_at s.now i))) zero32 }
{
    if is_centring(m) {
        0.0 + narrow_mean_at(s, i)
    } else {
        0.0
    }
}

pub(crate) fn shift_into(t: WeightedTransformer, s: &[f64], output: &mut [f32])
    requires sound { Sound t (length s.now) }
    requires input_length_in_bounds { t.input_length ≤ length output.old }
    ensures { output.new ≡ over output.old (shifts (transformer_view t s.now)) }
{
    let d = t.input_length;
    let m = t.transform_method;
    for i in 0..d {
        output[i] = shift_at(m, s, i);
    }
}

pub(crate) fn difference_deviations_into(t: WeightedTransformer, s: &[f64], output: &mut [f32])
    requires sound { Sound t (length s.now) }
    requires input_length_in_bounds { t.input_length ≤ length output.old }
    ensures { output.new ≡ over output.old (difference_deviations (transformer_view t s.now)) }
{
    let d = t.input_length;
    for i in 0..d {
        output[i] = narrow_mean_at(s, i + 4 * d);
    }
}

// 1 / weight, 0 for weight 0.
#[tactic(auto, unfolding(crate::specs::Transformer::reciprocal))]
fn reciprocal_of(w: f32) -> f32
    ensures { result ≡ reciprocal w }
{
    if w == 0.0 { 0.0 } else { 1.0 / w }
}

// What channel j is shifted by last in the first block.
fn base_at(carries: bool, s: &[f64], previous: &[f32], j: usize) -> f32
    requires { (3 * j + 3 ≤ length s.now) × (j < length previous.now) }
    ensures { result ≡ cond carries (get_or previous.now j nan) (narrowed (mean_at s.now j)) }
{
    if carries {
        previous[j]
    } else {
        narrow_mean_at(s, j)
    }
}

// What each channel is scaled and shifted by in the first block.
fn channels_into(
    t: WeightedTransformer,
    s: &[f64],
    previous: &[f32],
    channels: &mut Channels,
    bases: &mut [f32; 16],
)
    requires sound { Sound t (length s.now) }
    requires previous_len { length previous.now ≡ t.input_length }
    requires factors_len { (length channels.old.factors ≡ 16) × (length channels.old.scales ≡ 16) × (length channels.old.drifts ≡ 16) × (length bases.old ≡ 16) }
    ensures { FactorsIn (transformer_view t s.now) previous.now t.input_length channels.new.factors channels.new.scales channels.new.drifts bases.new }
{
    let d = t.input_length;
    let m = t.transform_method;
    let carries = is_differencing(m);
    for j in 0..d {
        channels.factors[j] = reciprocal_of(t.weights[j]);
        channels.scales[j] = normalized_scale(s, d, j);
        channels.drifts[j] = narrow_mean_at(s, j + 3 * d);
        bases[j] = base_at(carries, s, previous, j);
    }
}

// Every whole block, one after the other.
fn forecast_fitting(
    t: WeightedTransformer,
    s: &[f64],
    previous: &[f32],
    range: &mut RangeVector<f32>,
)
    requires sound { Sound t (length s.now) }
    requires previous_len { length previous.now ≡ t.input_length }
    requires upper_len { (length range.old.upper.now ≡ length range.old.values.now) × (length range.old.lower.now ≡ length range.old.values.now) }
    requires values_value { (differences t.transform_method && unblocked (length previous.now) (length range.old.values.now)) ≡ false }
    ensures after { held range.new ≡ inverted_forecast (transformer_view t s.now) previous.now (held range.old) }
    ensures loans { AreSameLoans range.old range.new }
{
    let d = t.input_length;
    let m = t.transform_method;
    let n = range.values.len() / d;
    let mut channels = Channels {
        factors: [0.0f32; 16],
        scales: [0.0f32; 16],
        drifts: [0.0f32; 16],
    };
    let mut bases = [0.0f32; 16];
    channels_into(t, s, previous, &mut channels, &mut bases);
    for i in 0..n {
        turn_block(m, &channels, &mut bases, d, i, range);
    }
}

// Whether every weight is 1.0.
pub fn all_one(w: &[f32]) -> bool
    ensures { result ≡ all_one w.now }
{
    w.iter().all(|x| *x == 1.0)
}

// Row 9: NONE takes no weight but 1.
pub fn weights_refused(m: TransformMethod, w: &[f32]) -> bool
    ensures { result ≡ (is_none m && not (all_one w.now)) }
{
    is_none(m) && !all_one(w)
}

// Rows 2 and 4, which every call tests first.
fn channels_row(d: usize) -> Result<(), Refusal>
    ensures value { row_of result ≡ first_of ((eqb d 0, 2) ∷ (ltb input_limit d, 4) ∷ []) }
    ensures d_nonzero { OnOk result ((0 < d) × (d ≤ 16)) }
{
    if d == 0 {
        return Err(Refusal::NoChannels);
    }
    if INPUT_LIMIT < d {
        return Err(Refusal::TooLarge);
    }
    Ok(())
}

#[tactic(auto, using(refusal::proofs::RefusalLaws::is_numbered), unfolding(crate::specs::TransformerCalls::new_row, common::specs::Deviation::deviation_new))]
fn new_row(m: TransformMethod, d: usize, decay: f64, w: &[f32], s: usize) -> Result<(), Refusal>
    ensures value { row_of result ≡ new_row m d decay w.now s }
    ensures d_nonzero { OnOk result ((0 < d) × (d ≤ 16) × (length w.now ≡ d) × (15 * d ≤ s)) }
{
    channels_row(d)?;
    if w.len() != d {
        return Err(Refusal::WeightsOrCodes);
    }
    // row 6 as the source has it: what makes a statistic with this discount refuses it
    Deviation::new(decay)?;
    if weights_refused(m, w) {
        return Err(Refusal::WeightWithoutMethod);
    }
    if s < 15 * d {
        return Err(Refusal::TooShort);
    }
    Ok(())
}

#[tactic(auto, using(refusal::proofs::RefusalLaws::is_numbered), unfolding(crate::specs::TransformerCalls::update_row, crate::specs::TransformerCalls::not_long))]
fn update_row(d: usize, x: usize, p: usize, count: u64, s: usize) -> Result<(), Refusal>
    ensures value { row_of result ≡ update_row d x p count s }
    ensures d_nonzero { OnOk result ((0 < d) × (d ≤ 16) × (x ≡ d) × (p ≡ d) × (count < count_limit) × (15 * d ≤ s)) }
{
    channels_row(d)?;
    if x != d || p != d {
        return Err(Refusal::InputLength);
    }
    if COUNT_LIMIT <= count {
        return Err(Refusal::CounterLimit);
    }
    if s < 15 * d {
        return Err(Refusal::TooShort);
    }
    Ok(())
}

#[tactic(auto, using(refusal::proofs::RefusalLaws::is_numbered), unfolding(crate::specs::TransformerCalls::transform_row, crate::specs::TransformerCalls::not_long))]
fn transform_row(d: usize, x: usize, p: usize, s: usize, o: usize) -> Result<(), Refusal>
    ensures value { row_of result ≡ transform_row d x p s o }
    ensures d_nonzero { OnOk result ((0 < d) × (d ≤ 16) × (x ≡ d) × (p ≡ d) × (15 * d ≤ s) × (d ≤ o)) }
{
    channels_row(d)?;
    if x != d || p != d {
        return Err(Refusal::InputLength);
    }
    if s < 15 * d || o < d {
        return Err(Refusal::TooShort);
    }
    Ok(())
}

#[tactic(auto, using(refusal::proofs::RefusalLaws::is_numbered), unfolding(crate::specs::TransformerCalls::output_row))]
fn output_row(d: usize, s: usize, o: usize) -> Result<(), Refusal>
    ensures value { row_of result ≡ output_row d s o }
    ensures d_nonzero { OnOk result ((0 < d) × (d ≤ 16) × (15 * d ≤ s) × (d ≤ o)) }
{
    channels_row(d)?;
    if s < 15 * d || o < d {
        return Err(Refusal::TooShort);
    }
    Ok(())
}

// Row 16 of a method that cascades: no block, or a broken one.
pub fn is_broken(m: TransformMethod, d: usize, n: usize) -> bool
    ensures { result ≡ (differences m && unblocked d n) }
{
    is_differencing(m) && is_unblocked(d, n)
}

#[tactic(auto, using(refusal::proofs::RefusalLaws::is_numbered), unfolding(crate::specs::TransformerCalls::forecast_row))]
fn forecast_row(
    m: TransformMethod,
    d: usize,
    p: usize,
    range: &RangeVector<f32>,
    s: usize,
) -> Result<(), Refusal>
    ensures value { row_of result
        ≡ forecast_row m d p (length range.now.values.now) (length range.now.upper.now) (length range.now.lower.now) s }
    ensures d_nonzero { OnOk result ((0 < d) × (d ≤ 16) × (p ≡ d)
        × (length range.now.upper.now ≡ length range.now.values.now) × (length range.now.lower.now ≡ length range.now.values.now)
        × ((differences m && unblocked d (length range.now.values.now)) ≡ false) × (15 * d ≤ s)) }
{
    let v = range.values.len();
    let u = range.upper.len();
    let l = range.lower.len();
    channels_row(d)?;
    if p != d {
        return Err(Refusal::InputLength);
    }
    if v != u || v != l || is_broken(m, d, v) {
        return Err(Refusal::ForecastShape);
    }
    if s < 15 * d {
        return Err(Refusal::TooShort);
    }
    Ok(())
}

// The weights or codes in an array, `empty` after them; that alone where there are more than it holds.
pub fn padded<T: Copy>(values: &[T], empty: T) -> [T; 16]
    ensures { result ≡ where_fits (within (length values.now) input_limit) (over (replicate input_limit empty) values.now) (replicate input_limit empty) }
{
    let mut a = [empty; 16];
    copy_in(&mut a, 0, values);
    a
}

// The same as the worker; where a row refuses, nothing changes.
#[tactic(auto, unfolding(crate::specs::Lengths::where_fits, crate::specs::Lengths::passes))]
pub fn invert_into(
    t: WeightedTransformer,
    s: &[f64],
    input: &[f32],
    previous: &[f32],
    output: &mut [f32],
)
    ensures { output.new ≡ where_fits (passes (transform_row t.input_length (length input.now) (length previous.now) (length s.now) (length output.old)))
        (over output.old (inverted (transformer_view t s.now) input.now previous.now)) output.old }
{
    let d = t.input_length;
    if transform_row(d, input.len(), previous.len(), s.len(), output.len()).is_ok() {
        invert_fitting(t, s, input, previous, output);
    }
}

// The same as the worker; where a row refuses, nothing changes.
#[tactic(auto, unfolding(crate::specs::Lengths::where_fits, crate::specs::Lengths::passes))]
pub fn invert_forecast_in_place(
    t: WeightedTransformer,
    s: &[f64],
    previous: &[f32],
    range: &mut RangeVector<f32>,
)
    ensures after { held range.new
        ≡ where_fits (passes (forecast_row t.transform_method t.input_length (length previous.now)
        (length range.old.values.now) (length range.old.upper.now) (length range.old.lower.now) (length s.now)))
        (inverted_forecast (transformer_view t s.now) previous.now (held range.old)) (held range.old) }
    ensures loans { AreSameLoans range.old range.new }
{
    let m = t.transform_method;
    let d = t.input_length;
    if forecast_row(m, d, previous.len(), range, s.len()).is_ok() {
        forecast_fitting(t, s, previous, range);
    }
}

impl WeightedTransformer {
    // Settings, with no reading fed: the front of the lent statistics is cleared.
    pub fn new(
        transform_method: TransformMethod,
        input_length: usize,
        transform_decay: f64,
        weights: &[f32],
        statistics: &mut [f64],
    ) -> Result<WeightedTransformer, Refusal>
        ensures { made_from result no_transformer statistics.new
            ≡ transformer_new transform_method input_length transform_decay weights.now statistics.old }
    {
        new_row(
            transform_method,
            input_length,
            transform_decay,
            weights,
            statistics.len(),
        )?;
        statistics[..15 * input_length].fill(0.0);
        Ok(WeightedTransformer {
            transform_method,
            input_length,
            transform_decay,
            weights: padded(weights, 0.0),
            count: 0,
        })
    }

    pub fn update(
        self,
        statistics: &mut [f64],
        input: &[f32],
        previous: &[f32],
    ) -> Result<WeightedTransformer, Refusal>
        ensures { made_from result self statistics.new
            ≡ transformer_update self statistics.old input.now previous.now }
    {
        let d = self.input_length;
        let count = self.count;
        let decay = self.transform_decay;
        update_row(d, input.len(), previous.len(), count, statistics.len())?;
        let f = next_factor(decay, count);
        let g = next_factor(0.1 * decay, count);
        update_channels(self, &mut statistics[..15 * d], input, previous, f, g);
        Ok(WeightedTransformer {
            count: count + 1,
            ..self
        })
    }

    pub fn transform(
        self,
        statistics: &[f64],
        input: &[f32],
        previous: &[f32],
        output: &mut [f32],
    ) -> Result<(), Refusal>
        ensures { transformer_output (row_of result) output.new
            ≡ transformer_transform self statistics.now input.now previous.now output.old }
    {
        let d = self.input_length;
        transform_row(
            d,
            input.len(),
            previous.len(),
            statistics.len(),
            output.len(),
        )?;
        transform_into(self, &statistics[..15 * d], input, previous, output);
        Ok(())
    }

    pub fn invert(
        self,
        statistics: &[f64],
        input: &[f32],
        previous: &[f32],
        output: &mut [f32],
    ) -> Result<(), Refusal>
        ensures { transformer_output (row_of result) output.new
            ≡ transformer_invert self statistics.now input.now previous.now output.old }
    {
        let d = self.input_length;
        transform_row(
            d,
            input.len(),
            previous.len(),
            statistics.len(),
            output.len(),
        )?;
        invert_fitting(self, &statistics[..15 * d], input, previous, output);
        Ok(())
    }

    pub fn invert_forecast(
        self,
        statistics: &[f64],
        previous: &[f32],
        range: &mut RangeVector<f32>,
    ) -> Result<(), Refusal>
        ensures after { range_outcome (row_of result) (held range.new)
            ≡ transformer_invert_forecast self statistics.now previous.now (held range.old) }
        ensures loans { AreSameLoans range.old range.new }
    {
        let d = self.input_length;
        let m = self.transform_method;
        forecast_row(m, d, previous.len(), range, statistics.len())?;
        forecast_fitting(self, &statistics[..15 * d], previous, range);
        Ok(())
    }

    pub fn scale(self, statistics: &[f64], output: &mut [f32]) -> Result<(), Refusal>
        ensures { transformer_output (row_of result) output.new ≡ transformer_scale self statistics.now output.old }
    {
        let d = self.input_length;
        output_row(d, statistics.len(), output.len())?;
        scale_into(self, &statistics[..15 * d], output);
        Ok(())
    }

    pub fn shift(self, statistics: &[f64], output: &mut [f32]) -> Result<(), Refusal>
        ensures { transformer_output (row_of result) output.new ≡ transformer_shift self statistics.now output.old }
    {
        let d = self.input_length;
        output_row(d, statistics.len(), output.len())?;
        shift_into(self, &statistics[..15 * d], output);
        Ok(())
    }

    pub fn difference_deviations(
        self,
        statistics: &[f64],
        output: &mut [f32],
    ) -> Result<(), Refusal>
        ensures { transformer_output (row_of result) output.new ≡ transformer_difference_deviations self statistics.now output.old }
    {
        let d = self.input_length;
        output_row(d, statistics.len(), output.len())?;
        difference_deviations_into(self, &statistics[..15 * d], output);
        Ok(())
    }
}
