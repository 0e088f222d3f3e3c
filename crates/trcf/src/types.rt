// The kinds that the settings name, under the source's names (trcf/types.rs).
ghost use Rattle.std.specs.Prelude.{◌≡◌};
ghost use Rattle.trcf.specs.Types.{method_number, MethodNumbered, method_of_number, mode_letter, ModeLettered, mode_of_letter, is_none, normalizes, differences, centres, augments, is_gap};

use refusal::Refusal;

// The largest number of channels, the largest number of readings in a point, and the first start that is refused (rows 4 and 8).
pub const INPUT_LIMIT: usize = 16;

pub const SHINGLE_LIMIT: usize = 64;

pub const START_BOUND: usize = 2000;

#[derive(Clone, Copy, Debug, PartialEq, Eq, Hash)]
pub enum TransformMethod {
    NONE,
    WEIGHTED,
    DIFFERENCE,
    SUBTRACT_MA,
    NORMALIZE,
    NORMALIZE_DIFFERENCE,
}

#[derive(Clone, Copy, Debug, PartialEq, Eq, Hash)]
pub enum ForestMode {
    STANDARD,
    TIME_AUGMENTED,
    STREAMING_IMPUTE,
    GAP_AUGMENTED,
}

// ---- numbers and letters, in texts and at every border

impl From<TransformMethod> for u64 {
    ghost from_gives = { λ method n. n ≡ method_number method };

    fn from(method: TransformMethod) -> u64 {
        match method {
            TransformMethod::NONE => 0,
            TransformMethod::WEIGHTED => 1,
            TransformMethod::DIFFERENCE => 2,
            TransformMethod::SUBTRACT_MA => 3,
            TransformMethod::NORMALIZE => 4,
            TransformMethod::NORMALIZE_DIFFERENCE => 5,
        }
    }
}

// A number above 5 names none.
impl TryFrom<u64> for TransformMethod {
    type Error = Refusal;

    ghost try_from_gives = { MethodNumbered };

    fn try_from(n: u64) -> Result<Self, Refusal> {
        match n {
            0 => Ok(TransformMethod::NONE),
            1 => Ok(TransformMethod::WEIGHTED),
            2 => Ok(TransformMethod::DIFFERENCE),
            3 => Ok(TransformMethod::SUBTRACT_MA),
            4 => Ok(TransformMethod::NORMALIZE),
            5 => Ok(TransformMethod::NORMALIZE_DIFFERENCE),
            _ => Err(Refusal::Form),
        }
    }
}

// For whoever has refused a number above 5 beforehand: it gives the last.
// Kept: (d) beside `try_from`: the bench's definition names a method for every number that a line holds, so there is none to refuse (bench_core/specs/Bench: `builder_from`).
pub fn method_of_number(n: u64) -> TransformMethod
    ensures { result ≡ method_of_number n }
{
    TransformMethod::try_from(n).unwrap_or(TransformMethod::NORMALIZE_DIFFERENCE)
}

impl From<ForestMode> for u8 {
    ghost from_gives = { λ mode letter. letter ≡ mode_letter mode };

    fn from(mode: ForestMode) -> u8 {
        match mode {
            ForestMode::STANDARD => b'S',
            ForestMode::TIME_AUGMENTED => b'T',
            ForestMode::STREAMING_IMPUTE => b'I',
            ForestMode::GAP_AUGMENTED => b'G',
        }
    }
}

// A letter of the four names its mode, I too, which no text has; another byte names none.
impl TryFrom<u8> for ForestMode {
    type Error = Refusal;

    ghost try_from_gives = { ModeLettered };

    fn try_from(letter: u8) -> Result<Self, Refusal> {
        match letter {
            b'S' => Ok(ForestMode::STANDARD),
            b'T' => Ok(ForestMode::TIME_AUGMENTED),
            b'I' => Ok(ForestMode::STREAMING_IMPUTE),
            b'G' => Ok(ForestMode::GAP_AUGMENTED),
            _ => Err(Refusal::Form),
        }
    }
}

// What is no letter names the mode that row 1 refuses: the letters are S, T and G.
// Kept: (d) beside `try_from`: the definitions name a mode for every number that a text holds, and row 1 is the refusal (bench_core/specs/Bench: `builder_from`;
// snapshot/specs/Read: `mode_from`).
pub fn mode_of_letter(letter: u64) -> ForestMode
    ensures { result ≡ mode_of_letter letter }
{
    match letter {
        83 => ForestMode::STANDARD,
        84 => ForestMode::TIME_AUGMENTED,
        71 => ForestMode::GAP_AUGMENTED,
        _ => ForestMode::STREAMING_IMPUTE,
    }
}

// ---- what the kinds ask for

// Kept: (d) the three that the rows and the calls ask for have an arm a kind, and no `matches!`: there the kinds of one pattern share one goal, so that an answer is not of its kind.

pub fn is_none(m: TransformMethod) -> bool
    ensures { result ≡ is_none m }
{
    match m {
        TransformMethod::NONE => true,
        TransformMethod::WEIGHTED => false,
        TransformMethod::DIFFERENCE => false,
        TransformMethod::SUBTRACT_MA => false,
        TransformMethod::NORMALIZE => false,
        TransformMethod::NORMALIZE_DIFFERENCE => false,
    }
}

pub fn is_normalizing(m: TransformMethod) -> bool
    ensures { result ≡ normalizes m }
{
    match m {
        TransformMethod::NONE => false,
        TransformMethod::WEIGHTED => false,
        TransformMethod::DIFFERENCE => false,
        TransformMethod::SUBTRACT_MA => false,
        TransformMethod::NORMALIZE => true,
        TransformMethod::NORMALIZE_DIFFERENCE => true,
    }
}

pub fn is_differencing(m: TransformMethod) -> bool
    ensures { result ≡ differences m }
{
    matches!(
        m,
        TransformMethod::DIFFERENCE | TransformMethod::NORMALIZE_DIFFERENCE
    )
}

pub(crate) fn is_centring(m: TransformMethod) -> bool
    ensures { result ≡ centres m }
{
    matches!(m, TransformMethod::SUBTRACT_MA | TransformMethod::NORMALIZE)
}

// Whether a transformed reading has a time element.
pub fn is_augmented(m: ForestMode) -> bool
    ensures { result ≡ augments m }
{
    match m {
        ForestMode::STANDARD => false,
        ForestMode::TIME_AUGMENTED => true,
        ForestMode::STREAMING_IMPUTE => false,
        ForestMode::GAP_AUGMENTED => true,
    }
}

// Whether the time element is a gap, to which no drift belongs.
pub fn is_gap(m: ForestMode) -> bool
    ensures { result ≡ is_gap m }
{
    matches!(m, ForestMode::GAP_AUGMENTED)
}
