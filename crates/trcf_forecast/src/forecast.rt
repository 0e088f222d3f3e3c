// A forecast of transformed readings turned back into readings and times (the source's Preprocessor::invert_extrapolation).
ghost use Rattle.std.specs.Prelude.{◌≡◌, true, false, ◌&&◌, [], ◌∷◌, ◌*◌, ◌≤◌, ◌<◌, pos, length, OnOk};
ghost use Rattle.std.specs.Float.{binary64};
ghost use Rattle.std.specs.Float.Ieee.{of_int};
ghost use Rattle.refusal.specs.Refusal.{first_of, row_of};
ghost use Rattle.ranges.specs.RangeVector.{ranges, held, AreSameLoans, unblocked, cascade_to, over_all, shorter_at, range_at, put_at};
ghost use Rattle.trcf.specs.Lists.{last_n};
ghost use Rattle.trcf.specs.Types.{augments, differences};
ghost use Rattle.trcf.specs.Transformer.{inverted_forecast};
ghost use Rattle.trcf.specs.Settings.{transformer, dimension};
ghost use Rattle.trcf.specs.Preprocessor.{statistics_length, fronts, backs, invert_times, numbers_of, times_of, turned_back};
ghost use Rattle.trcf.specs.View.{settings_of, holding, counters_unfit, Bounded};
ghost use Rattle.trcf.specs.Calls.{sizes, forecast_unfit, forecast_output_short};
ghost use Rattle.trcf.specs.Extrapolation.{extrapolation, forecast, viewed, extrapolation_of, read_short, row_at};
ghost use Rattle.trcf.specs.Steps.Inverting.{Unbroken, Longer, Long, Readable, Invertible, time_factor, time_by, times_by};
ghost use Rattle.trcf_forecast.specs.Steps.Lengths.{sizes_in, sizes_of};

use ranges::rangevector::{Range, RangeVector};
use refusal::Refusal;
use trcf::head::{Preprocessor, get_dimension, head_row, statistics_length};
use trcf::shingle::copy_in;
use trcf::time::{last_time, timedrift_of, timescale_of};
use trcf::transformer::{invert_forecast_in_place, is_broken};
use trcf::types::{is_augmented, is_gap};
use trcf_rows::rows::is_misfit;

// How long the three lists of a range are.
#[derive(Clone, Copy)]
struct RangeLengths {
    values: usize,
    upper: usize,
    lower: usize,
}

impl RangeLengths {
    // Whether one of them is shorter than n.
    fn is_shorter(self, n: usize) -> bool
        ensures value { result ≡ shorter_at self.values self.upper self.lower n }
        ensures longer { result ≡ false → Longer n self.values self.upper self.lower }
    {
        self.values < n || self.upper < n || self.lower < n
    }
}

// How long the lists of a forecast and of its outputs are.
#[derive(Clone, Copy)]
struct Lengths {
    range: RangeLengths,
    range_out: RangeLengths,
    times_out: RangeLengths,
}

// Row 16.
#[tactic(auto, unfolding(trcf::specs::Calls::forecast_unfit), using(trcf::proofs::LengthLaws::dimension_known))]
fn broken_row(head: Preprocessor, range: RangeLengths) -> Result<(), Refusal>
    requires { Bounded (settings_of head) }
    ensures value { row_of result ≡ first_of ((forecast_unfit (settings_of head) range.values range.upper range.lower, 16) ∷ []) }
    ensures unbroken { OnOk result (Unbroken (settings_of head) range.values range.upper range.lower) }
{
    if range.values != range.upper || range.values != range.lower {
        return Err(Refusal::ForecastShape);
    }
    let broken = if is_augmented(head.forest_mode) {
        range.values < get_dimension(head)
    } else {
        is_broken(
            head.transformer.transform_method,
            head.transformer.input_length,
            range.values,
        )
    };
    if broken {
        return Err(Refusal::ForecastShape);
    }
    Ok(())
}

// Row 20 of the output.
fn output_row(head: Preprocessor, lengths: Lengths) -> Result<(), Refusal>
    requires { Bounded (settings_of head) }
    ensures value { row_of result ≡ first_of ((forecast_output_short (settings_of head) (sizes_in lengths), 20) ∷ []) }
    ensures long { OnOk result (augments head.forest_mode ≡ true → Long (settings_of head) (sizes_in lengths)) }
{
    let d = head.transformer.input_length;
    let k = head.shingle_size;
    let a = get_dimension(head);
    if is_augmented(head.forest_mode) {
        let h = lengths.range.values / a;
        if lengths.range_out.is_shorter(h * (d * k)) {
            return Err(Refusal::TooShort);
        }
        if lengths.times_out.is_shorter(h) {
            return Err(Refusal::TooShort);
        }
    }
    Ok(())
}

// Row 20 of what the call reads of the preprocessor.
#[tactic(auto, unfolding(trcf::specs::Extrapolation::read_short), using(trcf::proofs::LengthLaws::statistics_known))]
fn unread_row(
    head: Preprocessor,
    statistics: usize,
    inputs: usize,
    times: usize,
) -> Result<(), Refusal>
    requires { Bounded (settings_of head) }
    ensures value { row_of result ≡ first_of ((read_short (settings_of head) statistics inputs times, 20) ∷ []) }
    ensures readable { OnOk result (Readable (settings_of head) statistics inputs times) }
{
    let d = head.transformer.input_length;
    let k = head.shingle_size;
    if statistics < statistics_length(d) || inputs < d * k || times < k {
        return Err(Refusal::TooShort);
    }
    Ok(())
}

// Row 20 of the head's counters.
fn counters_row(head: Preprocessor) -> Result<(), Refusal>
    ensures { row_of result ≡ first_of ((counters_unfit head, 20) ∷ []) }
{
    if is_misfit(head) {
        return Err(Refusal::TooShort);
    }
    Ok(())
}

fn extrapolation_row(
    head: Preprocessor,
    statistics: usize,
    inputs: usize,
    times: usize,
    lengths: Lengths,
) -> Result<(), Refusal>
    ensures value { row_of result ≡ row_at head statistics inputs times (sizes_in lengths) }
    ensures invertible { OnOk result (Invertible (settings_of head) statistics inputs times (sizes_in lengths)) }
{
    head_row(head)?;
    broken_row(head, lengths.range)?;
    counters_row(head)?;
    output_row(head, lengths)?;
    unread_row(head, statistics, inputs, times)
}

// The forecast in place, over the newest input.
fn invert_in_place(head: Preprocessor, s: &[f64], inputs: &[f32], range: &mut RangeVector<f32>)
    requires bounded { Bounded (settings_of head) }
    requires head_in_bounds { (statistics_length (settings_of head) ≤ length s.now) × (length inputs.now ≡ head.transformer.input_length * head.shingle_size) }
    requires upper_len { (length range.old.upper.now ≡ length range.old.values.now) × (length range.old.lower.now ≡ length range.old.values.now) }
    requires values_value { (differences head.transformer.transform_method && unblocked head.transformer.input_length (length range.old.values.now)) ≡ false }
    ensures after { held range.new
        ≡ inverted_forecast (transformer (settings_of head) 0 s.now) (last_n head.transformer.input_length inputs.now) (held range.old) }
    ensures loans { AreSameLoans range.old range.new }
{
    let t = head.transformer;
    let newest = &inputs[inputs.len() - t.input_length..];
    invert_forecast_in_place(t, s, newest, range);
}

// Of each of h blocks of a numbers the first m.
fn copy_fronts(src: &[f32], a: usize, m: usize, h: usize, dst: &mut [f32])
    requires { (h * a ≤ length src.now) × (m ≤ a) × (length dst.old ≡ h * m) }
    ensures { dst.new ≡ fronts a m h src.now }
{
    for i in 0..h {
        let from = i * a;
        let to = from + m;
        let at = i * m;
        copy_in(dst, at, &src[from..to]);
    }
}

// The numbers of each block of the range, turned back in the lists lent for them.
fn invert_numbers(
    head: Preprocessor,
    s: &[f64],
    inputs: &[f32],
    h: usize,
    range: &RangeVector<f32>,
    values_out: &mut [f32],
    upper_out: &mut [f32],
    lower_out: &mut [f32],
)
    requires bounded { Bounded (settings_of head) }
    requires head_in_bounds { (statistics_length (settings_of head) ≤ length s.now) × (length inputs.now ≡ head.transformer.input_length * head.shingle_size) }
    requires h_nonzero { 0 < h }
    requires head_in_bounds_2 { (h * dimension (settings_of head) ≤ length range.now.values.now)
        × (h * dimension (settings_of head) ≤ length range.now.upper.now) × (h * dimension (settings_of head) ≤ length range.now.lower.now) }
    requires values_out_len { (length values_out.old ≡ h * (head.transformer.input_length * head.shingle_size))
        × (length upper_out.old ≡ h * (head.transformer.input_length * head.shingle_size))
        × (length lower_out.old ≡ h * (head.transformer.input_length * head.shingle_size)) }
    ensures { ranges values_out.new upper_out.new lower_out.new
        ≡ inverted_forecast (transformer (settings_of head) 0 s.now) (last_n head.transformer.input_length inputs.now)
        (ranges (fronts (dimension (settings_of head)) (head.transformer.input_length * head.shingle_size) h range.now.values.now)
        (fronts (dimension (settings_of head)) (head.transformer.input_length * head.shingle_size) h range.now.upper.now)
        (fronts (dimension (settings_of head)) (head.transformer.input_length * head.shingle_size) h range.now.lower.now)) }
{
    let m = inputs.len();
    let a = get_dimension(head);
    copy_fronts(range.values, a, m, h, values_out);
    copy_fronts(range.upper, a, m, h, upper_out);
    copy_fronts(range.lower, a, m, h, lower_out);
    let mut out = RangeVector {
        values: values_out,
        upper: upper_out,
        lower: lower_out,
    };
    invert_in_place(head, s, inputs, &mut out);
}

// 1 / weight_time, 0 for weight_time 0.
#[tactic(auto, unfolding(trcf::specs::Steps::Inverting::time_factor))]
fn time_factor(weight: f32) -> f64
    ensures { result ≡ time_factor weight }
{
    if weight == 0.0 {
        0.0
    } else {
        1.0 / numeric::to_f64(weight)
    }
}

// What a time is turned back by; to a gap no drift belongs.
#[derive(Clone, Copy)]
struct Clock {
    gap: bool,
    factor: f64,
    scale: f64,
    drift: f64,
}

impl Clock {
    // A time with its bounds; the last step puts them in order: of a gap the scale, of another time the shift.
    fn invert(self, x: Range<f32>) -> Range<f64>
        ensures { result ≡ time_by self.gap self.factor self.scale self.drift x }
    {
        let r = Range {
            value: numeric::to_f64(x.value) * self.factor,
            upper: numeric::to_f64(x.upper) * self.factor,
            lower: numeric::to_f64(x.lower) * self.factor,
        };
        if self.gap {
            return r.scale(self.scale);
        }
        let stretched = Range {
            value: r.value * self.scale,
            upper: r.upper * self.scale,
            lower: r.lower * self.scale,
        };
        stretched.shift(self.drift)
    }
}

// What a range holds at one index.
// Kept: (a) a rule of the project: a public function asks nothing of its callers, so that the two of ranges that do the same stay private.
fn read_at(range: &RangeVector<f32>, i: usize) -> Range<f32>
    requires { (i < length range.now.values.now) × (i < length range.now.upper.now) × (i < length range.now.lower.now) }
    ensures { result ≡ range_at (held range.now) i }
{
    Range {
        value: range.values[i],
        upper: range.upper[i],
        lower: range.lower[i],
    }
}

// r stands at one index.
fn write_at(range: &mut RangeVector<f64>, i: usize, r: Range<f64>)
    requires { (i < length range.old.values.now) × (i < length range.old.upper.now) × (i < length range.old.lower.now) }
    ensures after { held range.new ≡ put_at (held range.old) i r }
    ensures loans { AreSameLoans range.old range.new }
{
    range.values[i] = r.value;
    range.upper[i] = r.upper;
    range.lower[i] = r.lower;
}

// The time after the first m numbers of each block of a.
fn write_times(
    clock: Clock,
    a: usize,
    m: usize,
    range: &RangeVector<f32>,
    out: &mut RangeVector<f64>,
)
    requires m_lt_a { m < a }
    requires upper_out_len { (length out.old.upper.now ≡ length out.old.values.now) × (length out.old.lower.now ≡ length out.old.values.now) }
    requires a_in_bounds { (length out.old.values.now * a ≤ length range.now.values.now)
        × (length out.old.values.now * a ≤ length range.now.upper.now) × (length out.old.values.now * a ≤ length range.now.lower.now) }
    ensures after { held out.new
        ≡ times_by clock.gap clock.factor clock.scale clock.drift a m (held range.now) (length out.old.values.now) }
    ensures loans { AreSameLoans out.old out.new }
{
    for i in 0..out.values.len() {
        let at = i * a + m;
        write_at(out, i, clock.invert(read_at(range, at)));
    }
}

// The time of each block of the range, turned back in the lists lent for it.
fn invert_times(
    head: Preprocessor,
    s: &[f64],
    last: u64,
    range: &RangeVector<f32>,
    values_out: &mut [f64],
    upper_out: &mut [f64],
    lower_out: &mut [f64],
)
    requires bounded { Bounded (settings_of head) }
    requires head_in_bounds { statistics_length (settings_of head) ≤ length s.now }
    requires forest_mode_value { augments head.forest_mode ≡ true }
    requires nonzero { 0 < length values_out.old }
    requires upper_out_len { (length upper_out.old ≡ length values_out.old) × (length lower_out.old ≡ length values_out.old) }
    requires head_in_bounds_2 { (length values_out.old * dimension (settings_of head) ≤ length range.now.values.now)
        × (length values_out.old * dimension (settings_of head) ≤ length range.now.upper.now)
        × (length values_out.old * dimension (settings_of head) ≤ length range.now.lower.now) }
    ensures { ranges values_out.new upper_out.new lower_out.new
        ≡ cascade_to binary64 (of_int binary64 (pos last) ∷ []) (length values_out.old)
        (invert_times (settings_of head) s.now
        (backs (dimension (settings_of head)) (head.transformer.input_length * head.shingle_size) (length values_out.old) range.now.values.now)
        (backs (dimension (settings_of head)) (head.transformer.input_length * head.shingle_size) (length values_out.old) range.now.upper.now)
        (backs (dimension (settings_of head)) (head.transformer.input_length * head.shingle_size) (length values_out.old) range.now.lower.now)) }
{
    let m = head.transformer.input_length * head.shingle_size;
    let a = get_dimension(head);
    let clock = Clock {
        gap: is_gap(head.forest_mode),
        factor: time_factor(head.weight_time),
        scale: timescale_of(head, s),
        drift: timedrift_of(head, s),
    };
    let mut out = RangeVector {
        values: values_out,
        upper: upper_out,
        lower: lower_out,
    };
    write_times(clock, a, m, range, &mut out);
    let base = [numeric::u64_to_f64(last)];
    out.cascaded_add(&base).unwrap();
}

// A mode with a time element: numbers and times to the front of the lists lent for them.
// Kept: (c) the six lists are parameters, here and of the two workers above: a part of a list in a lent struct cannot be lent beside another's part
// (the borrow checker covers no such call), and what a struct of parts was left as is not known after it.
fn invert_augmented(
    head: Preprocessor,
    s: &[f64],
    inputs: &[f32],
    times: &[u64],
    range: &RangeVector<f32>,
    values_out: &mut [f32],
    upper_out: &mut [f32],
    lower_out: &mut [f32],
    times_out: &mut [f64],
    times_upper_out: &mut [f64],
    times_lower_out: &mut [f64],
)
    requires invertible { Invertible (settings_of head) (length s.now) (length inputs.now) (length times.now)
        (sizes (length range.now.values.now) (length range.now.upper.now) (length range.now.lower.now) (length values_out.old) (length upper_out.old) (length lower_out.old)
        (length times_out.old) (length times_upper_out.old) (length times_lower_out.old)) }
    requires inputs_len { length inputs.now ≡ head.transformer.input_length * head.shingle_size }
    requires forest_mode_value { augments head.forest_mode ≡ true }
    ensures lower_out_after { ranges values_out.new upper_out.new lower_out.new
        ≡ over_all (ranges values_out.old upper_out.old lower_out.old) (numbers_of (holding head s.now inputs.now times.now) (held range.now)) }
    ensures times_lower_out_after { ranges times_out.new times_upper_out.new times_lower_out.new
        ≡ over_all (ranges times_out.old times_upper_out.old times_lower_out.old) (times_of (holding head s.now inputs.now times.now) (held range.now)) }
{
    let a = get_dimension(head);
    let h = range.values.len() / a;
    let n = h * inputs.len();
    let last = last_time(times);
    invert_numbers(
        head,
        s,
        inputs,
        h,
        range,
        &mut values_out[..n],
        &mut upper_out[..n],
        &mut lower_out[..n],
    );
    invert_times(
        head,
        s,
        last,
        range,
        &mut times_out[..h],
        &mut times_upper_out[..h],
        &mut times_lower_out[..h],
    );
}

// What no row refuses.
fn invert_accepted(
    head: Preprocessor,
    statistics: &[f64],
    last_shingled_input: &[f32],
    previous_timestamps: &[u64],
    range: &mut RangeVector<f32>,
    range_out: &mut RangeVector<f32>,
    times_out: &mut RangeVector<f64>,
)
    requires { Invertible (settings_of head) (length statistics.now) (length last_shingled_input.now) (length previous_timestamps.now) (sizes_of range.old range_out.old times_out.old) }
    ensures after { forecast (held range.new) (held range_out.new) (held times_out.new)
        ≡ turned_back (viewed head statistics.now last_shingled_input.now previous_timestamps.now)
        (forecast (held range.old) (held range_out.old) (held times_out.old)) }
    ensures loans { AreSameLoans range.old range.new × AreSameLoans range_out.old range_out.new × AreSameLoans times_out.old times_out.new }
{
    let d = head.transformer.input_length;
    let k = head.shingle_size;
    let m = statistics_length(d);
    let n = d * k;
    if is_augmented(head.forest_mode) {
        invert_augmented(
            head,
            &statistics[..m],
            &last_shingled_input[..n],
            &previous_timestamps[..k],
            range,
            range_out.values,
            range_out.upper,
            range_out.lower,
            times_out.values,
            times_out.upper,
            times_out.lower,
        );
    } else {
        invert_in_place(head, &statistics[..m], &last_shingled_input[..n], range);
    }
}

// In STANDARD the forecast is turned back in place; in a mode with a time element numbers and times go to the outputs.
pub fn invert_extrapolation(
    head: Preprocessor,
    statistics: &[f64],
    last_shingled_input: &[f32],
    previous_timestamps: &[u64],
    range: &mut RangeVector<f32>,
    range_out: &mut RangeVector<f32>,
    times_out: &mut RangeVector<f64>,
) -> Result<(), Refusal>
    ensures after { extrapolation (row_of result) (forecast (held range.new) (held range_out.new) (held times_out.new))
        ≡ extrapolation_of head statistics.now last_shingled_input.now previous_timestamps.now
        (forecast (held range.old) (held range_out.old) (held times_out.old)) }
    ensures loans { AreSameLoans range.old range.new × AreSameLoans range_out.old range_out.new × AreSameLoans times_out.old times_out.new }
{
    let lengths = Lengths {
        range: RangeLengths {
            values: range.values.len(),
            upper: range.upper.len(),
            lower: range.lower.len(),
        },
        range_out: RangeLengths {
            values: range_out.values.len(),
            upper: range_out.upper.len(),
            lower: range_out.lower.len(),
        },
        times_out: RangeLengths {
            values: times_out.values.len(),
            upper: times_out.upper.len(),
            lower: times_out.lower.len(),
        },
    };
    extrapolation_row(
        head,
        statistics.len(),
        last_shingled_input.len(),
        previous_timestamps.len(),
        lengths,
    )?;
    invert_accepted(
        head,
        statistics,
        last_shingled_input,
        previous_timestamps,
        range,
        range_out,
        times_out,
    );
    Ok(())
}
