// The head: settings and counters by value (the source's trcf/preprocessor.rs); six lent lists go beside it. What every head must keep, the sizes that follow
// from it, and what the calls answer with it.
ghost use Rattle.std.specs.Prelude.{◌≡◌, cond, ◌+◌, ◌*◌, ◌≤◌, OnOk};
ghost use Rattle.refusal.specs.Refusal.{row_of};
ghost use Rattle.trcf.specs.Lengths.{where_fits, within};
ghost use Rattle.trcf.specs.View.{settings_of, head_row, initial_room, dimension_of, no_head, counting, lent_by, lengths_of, Bounded};
ghost use Rattle.trcf.specs.Types.{augments};

use crate::transformer::WeightedTransformer;
use crate::types::{
    ForestMode, INPUT_LIMIT, SHINGLE_LIMIT, START_BOUND, TransformMethod, is_augmented,
    is_normalizing,
};
use refusal::Refusal;

// Kept: (a) no heap and fixed memory, so the codes stand in an array; how many count is the transformer's `input_length`.
#[derive(Clone, Copy)]
pub struct Preprocessor {
    pub transformer: WeightedTransformer,
    pub forest_mode: ForestMode,
    pub shingle_size: usize,
    pub start_normalization: usize,
    pub stop_normalization: usize,
    pub weight_time: f32,
    pub values_seen: usize,
    pub internal_timestamp: usize,
    pub initial_len: usize,
    pub codes: [u16; 16],
}

// The six lists that go beside a head, lent to be read.
#[derive(Clone, Copy)]
pub struct LentLists<'a> {
    pub statistics: &'a [f64],
    pub last_shingled_input: &'a [f32],
    pub last_shingled_point: &'a [f32],
    pub previous_timestamps: &'a [u64],
    pub initial_values: &'a [f32],
    pub initial_timestamps: &'a [u64],
}

// How long each of the six lent lists is.
#[derive(Clone, Copy)]
pub struct LentLengths {
    pub statistics: usize,
    pub last_shingled_input: usize,
    pub last_shingled_point: usize,
    pub previous_timestamps: usize,
    pub initial_values: usize,
    pub initial_timestamps: usize,
}

impl LentLists<'_> {
    // How long each of them is.
    pub fn lengths(self) -> LentLengths
        ensures { result ≡ lengths_of (lent_by self.entry) }
    {
        LentLengths {
            statistics: self.statistics.len(),
            last_shingled_input: self.last_shingled_input.len(),
            last_shingled_point: self.last_shingled_point.len(),
            previous_timestamps: self.previous_timestamps.len(),
            initial_values: self.initial_values.len(),
            initial_timestamps: self.initial_timestamps.len(),
        }
    }
}

// The settings of a new preprocessor; its weights and codes are handed beside it.
#[derive(Clone, Copy)]
pub struct PreprocessorBuilder {
    pub forest_mode: ForestMode,
    pub transform_method: TransformMethod,
    pub input_dimensions: usize,
    pub shingle_size: usize,
    pub start_normalization: usize,
    pub stop_normalization: usize,
    pub transform_decay: f64,
    pub weight_time: f32,
}

// What shingled_point answers: whether a point stands in the output.
#[derive(Clone, Copy)]
pub struct Pointed {
    pub given: bool,
    pub head: Preprocessor,
}

// When an anomaly was, and how likely it is one.
#[derive(Clone, Copy)]
pub struct Anomaly {
    pub past_timestamp: u64,
    pub likelihood: f32,
}

// What post_process answers: whether the deviations stand in their output, and the anomaly, if there is one.
#[derive(Clone, Copy)]
pub struct PostProcessed {
    pub head: Preprocessor,
    pub written: bool,
    pub anomaly: Option<Anomaly>,
}

// What the getters say together.
#[derive(Clone, Copy)]
pub struct Status {
    pub values_seen: usize,
    pub internal_timestamp: usize,
    pub ready: bool,
    pub input_dimensions: usize,
    pub shingle_size: usize,
    pub dimensions: usize,
    pub transform_method: TransformMethod,
    pub forest_mode: ForestMode,
    pub start_normalization: usize,
    pub panel: u64,
}

// The largest values_seen and internal_timestamp.
pub const SEEN_LIMIT: usize = 9_223_372_036_854_775_807;

// A head that no build made, for whoever needs one before the first build: every call refuses it.
// Kept: (d) the definitions tell it on a refusal, and the bench holds one before the first `set`: an Option there would be taken apart at every line.
#[tactic(auto, unfolding(refusal::specs::Lent::over))]
pub fn no_head() -> Preprocessor
    ensures { result ≡ no_head }
{
    Preprocessor {
        transformer: WeightedTransformer {
            transform_method: TransformMethod::NONE,
            input_length: 0,
            transform_decay: 0.0,
            weights: [0.0; 16],
            count: 0,
        },
        forest_mode: ForestMode::STANDARD,
        shingle_size: 0,
        start_normalization: 0,
        stop_normalization: 0,
        weight_time: 0.0,
        values_seen: 0,
        internal_timestamp: 0,
        initial_len: 0,
        codes: [0; 16],
    }
}

// The head with other counts.
pub fn with_counts(
    head: Preprocessor,
    count: u64,
    values_seen: usize,
    internal_timestamp: usize,
    initial_len: usize,
) -> Preprocessor
    ensures { result ≡ counting head count values_seen internal_timestamp initial_len }
{
    Preprocessor {
        transformer: WeightedTransformer {
            count,
            ..head.transformer
        },
        values_seen,
        internal_timestamp,
        initial_len,
        ..head
    }
}

// What no head that `build` made is refused by.
// Kept: (d) `Bounded (settings_of head)` stays a clause of one word where a head was tested: a type of bounded heads would be a second struct around this one, taken
// apart at each field, and the outcome of every call speaks of the head itself.
#[tactic(auto, unfolding(crate::specs::View::head_row))]
pub fn head_row(head: Preprocessor) -> Result<(), Refusal>
    ensures value { row_of result ≡ head_row (settings_of head) }
    ensures bounded { OnOk result (Bounded (settings_of head)) }
{
    let d = head.transformer.input_length;
    let k = head.shingle_size;
    if d == 0 {
        return Err(Refusal::NoChannels);
    }
    if k == 0 {
        return Err(Refusal::NoShingle);
    }
    if INPUT_LIMIT < d || SHINGLE_LIMIT < k {
        return Err(Refusal::TooLarge);
    }
    if START_BOUND <= head.start_normalization {
        return Err(Refusal::StartTooLarge);
    }
    Ok(())
}

// How many readings can come to wait: none under a method that never waits.
pub fn initial_room(head: Preprocessor) -> usize
    ensures value { result ≡ initial_room (settings_of head) }
    ensures upper_bound { result ≤ head.start_normalization }
{
    if is_normalizing(head.transformer.transform_method) {
        head.start_normalization
    } else {
        0
    }
}

// The numbers in one transformed reading; 0 for more channels than a head can have.
// Kept: (a) a public function asks nothing of its callers, and what could not fail still cannot, so it answers 0 and no Result.
#[tactic(auto, unfolding(crate::specs::Lengths::where_fits, crate::specs::Lengths::within))]
pub fn block_of(m: ForestMode, d: usize) -> usize
    ensures value { result ≡ where_fits (within d 16) (d + cond (augments m) 1 0) 0 }
    ensures upper_bound { result ≤ 17 }
{
    if INPUT_LIMIT < d {
        return 0;
    }
    if is_augmented(m) { d + 1 } else { d }
}

// The numbers of the statistics of d channels and the time: five of each, three numbers each; 0 for more channels than a head can have.
// Kept: (a) the 0 for the same reason.
#[tactic(auto, unfolding(crate::specs::Lengths::where_fits, crate::specs::Lengths::within))]
pub fn statistics_length(d: usize) -> usize
    ensures { result ≡ where_fits (within d 16) (3 * (5 * d + 5)) 0 }
{
    if INPUT_LIMIT < d {
        return 0;
    }
    3 * (5 * d + 5)
}

// The numbers in a point; 0 for a head that no build made.
// Kept: (a) the C getter of this number answers 0 for such a head.
#[tactic(auto, using(crate::proofs::LengthLaws::block_known), unfolding(crate::specs::Settings::dimension, crate::specs::Settings::block))]
pub fn get_dimension(head: Preprocessor) -> usize
    ensures { result ≡ dimension_of head }
{
    if head_row(head).is_err() {
        return 0;
    }
    block_of(head.forest_mode, head.transformer.input_length) * head.shingle_size
}
