// The calls on lists of readings, which take no preprocessor: missing cells filled in, and two lists compared.
ghost use Rattle.std.specs.Prelude.{◌≡◌};
ghost use Rattle.series.specs.Imputation.{imputation};
ghost use Rattle.series.specs.Alignment.{readings, outputs, align_outcome};
ghost use Rattle.capi.specs.Lists.{impute_at, align_at};

use refusal::row_of;
use series::alignment::align;
use series::imputation::{ImputationMethod, impute};

// The missing cells filled in, in their place.
#[unsafe(no_mangle)]
pub extern "C" fn veerycouch_impute(
    method: u64,
    d: u64,
    cells: &mut [f32],
    marks: &[u8],
    fixed: &[f32],
) -> u64
    ensures { imputation result cells.new ≡ impute_at method d cells.old marks.now fixed.now }
{
    let rule = match ImputationMethod::try_from(method) {
        Ok(rule) => rule,
        Err(refusal) => return u64::from(refusal),
    };
    row_of(impute(rule, d, cells, marks, fixed))
}

// Two lists paired by their times: the pairs' positions, their number, and the largest size of difference of each channel.
#[unsafe(no_mangle)]
pub extern "C" fn veerycouch_align(
    d: u64,
    left: &[f32],
    left_times: &[u64],
    right: &[f32],
    right_times: &[u64],
    tolerance: u64,
    left_out: &mut [u64],
    right_out: &mut [u64],
    gaps_out: &mut [f32],
    pairs: &mut u64,
) -> u64
    ensures { align_outcome result pairs.new (outputs left_out.new right_out.new gaps_out.new)
        ≡ align_at d (readings left.now left_times.now) (readings right.now right_times.now) tolerance pairs.old (outputs left_out.old right_out.old gaps_out.old) }
{
    let aligned = align(
        d,
        left,
        left_times,
        right,
        right_times,
        tolerance,
        left_out,
        right_out,
        gaps_out,
    );
    match aligned {
        Ok(number) => {
            *pairs = number;
            0
        }
        Err(refusal) => u64::from(refusal),
    }
}
