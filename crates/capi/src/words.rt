// A kind of the head as a word, and a word as a kind, by their numbers.
ghost use Rattle.std.specs.Prelude.{◌≡◌};
ghost use Rattle.refusal.specs.Refusal.{row_of};
ghost use Rattle.capi.specs.Head.{mode_number, mode_of, method_of, kind_row};

use refusal::Refusal;
use trcf::types::{ForestMode, TransformMethod};

// Refused for a number that names no kind.
pub(crate) fn kind_row(mode: u64, method: u64) -> Result<(), Refusal>
    ensures { row_of result ≡ kind_row mode method }
{
    if 3 < mode || 5 < method {
        Err(Refusal::Form)
    } else {
        Ok(())
    }
}

// Kept: (d) a kind of every number, as specs/Head defines it, here and in `method_of`: `kind_row` has refused a number of none before, so that a Result would
// have a second test that cannot fail.
pub(crate) fn mode_of(n: u64) -> ForestMode
    ensures { result ≡ mode_of n }
{
    match n {
        1 => ForestMode::TIME_AUGMENTED,
        2 => ForestMode::STREAMING_IMPUTE,
        3 => ForestMode::GAP_AUGMENTED,
        _ => ForestMode::STANDARD,
    }
}

// Kept: (a) C has numbers for the modes, and not the letters that `u8::from` gives.
pub(crate) fn mode_number(m: ForestMode) -> u64
    ensures { result ≡ mode_number m }
{
    match m {
        ForestMode::STANDARD => 0,
        ForestMode::TIME_AUGMENTED => 1,
        ForestMode::STREAMING_IMPUTE => 2,
        ForestMode::GAP_AUGMENTED => 3,
    }
}

pub(crate) fn method_of(n: u64) -> TransformMethod
    ensures { result ≡ method_of n }
{
    TransformMethod::try_from(n).unwrap_or(TransformMethod::NONE)
}
