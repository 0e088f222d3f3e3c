// Whether what is lent holds what is in use of it.
ghost use Rattle.std.specs.Prelude.{◌≡◌, cond, ◌||◌, ◌≤◌, ltb};
ghost use Rattle.trcf.specs.Types.{augments};
ghost use Rattle.snapshot.specs.Save.{past};

use trcf::head::{LentLengths, statistics_length};
use trcf::types::{ForestMode, INPUT_LIMIT, SHINGLE_LIMIT, START_BOUND, is_augmented};

// The numbers of a time in a transformed reading: one where the mode has a time element.
pub fn time_width(m: ForestMode) -> usize
    ensures { result ≡ cond (augments m) 1 0 }
{
    usize::from(is_augmented(m))
}

// Whether a number is past the limits, or a lent list is shorter than what is in use of it; a time of more than one number is past them too.
#[tactic(auto, using(trcf::proofs::LengthLaws::statistics_known, crate::proofs::SaveLaws::few, crate::proofs::SaveLaws::few_wide, crate::proofs::SaveLaws::few_values))]
pub fn is_past(d: usize, k: usize, wide: usize, n: usize, lengths: LentLengths) -> bool
    ensures { result ≡ (ltb 1 wide || past d k wide n lengths.statistics lengths.last_shingled_input lengths.last_shingled_point
        lengths.previous_timestamps lengths.initial_values lengths.initial_timestamps) }
{
    if 1 < wide || INPUT_LIMIT < d || SHINGLE_LIMIT < k || START_BOUND <= n {
        return true;
    }
    lengths.statistics < statistics_length(d)
        || lengths.last_shingled_input < d * k
        || lengths.last_shingled_point < (d + wide) * k
        || lengths.previous_timestamps < k
        || lengths.initial_values < n * d
        || lengths.initial_timestamps < n
}
