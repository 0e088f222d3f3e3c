// One reading of a list's statistic put right: it takes no preprocessor.
ghost use Rattle.std.specs.Prelude.{◌≡◌};
ghost use Rattle.refusal.specs.Refusal.{row_of};
ghost use Rattle.common.specs.Deviation.{statistic};
ghost use Rattle.capi.specs.Statistic.{statistic_got, statistic_told, corrected_at};

use common::deviation::Deviation;
use refusal::{Refusal, row_of};

// Weight, sum and sum of squares into lent memory, where they fit.
fn tell_statistic(s: Deviation, output: &mut [f64]) -> Result<(), Refusal>
    ensures { statistic_got (row_of result) output.new ≡ statistic_told s output.old }
{
    if output.len() < 3 {
        return Err(Refusal::TooShort);
    }
    output[0] = s.weight;
    output[1] = s.sum;
    output[2] = s.sum_squared;
    Ok(())
}

// The statistic of a list with `right` in a place that held `wrong`.
#[unsafe(no_mangle)]
pub extern "C" fn veerycouch_corrected(
    discount: f64,
    weight: f64,
    sum: f64,
    sum_squared: f64,
    count: u64,
    wrong: f32,
    right: f32,
    output: &mut [f64],
) -> u64
    ensures { statistic_got result output.new ≡ corrected_at (statistic discount weight sum sum_squared count) wrong right output.old }
{
    let s = Deviation {
        discount,
        weight,
        sum_squared,
        sum,
        count,
    };
    match s.corrected(wrong, right) {
        Ok(t) => row_of(tell_statistic(t, output)),
        Err(refusal) => u64::from(refusal),
    }
}
