// Which row refuses a call. Nothing here writes.
ghost use Rattle.std.specs.Prelude.{◌≡◌, not, ◌&&◌, ◌||◌, List, ℕ, ◌+◌, ◌≤◌, ltb, eqb, length, take, Float, OnOk};
ghost use Rattle.common.specs.Deviation.{count_limit};
ghost use Rattle.refusal.specs.Refusal.{row_of};
ghost use Rattle.trcf.specs.Lists.{null};
ghost use Rattle.trcf.specs.Types.{is_gap};
ghost use Rattle.trcf.specs.Settings.{imputes, waiting, settings_row, block};
ghost use Rattle.trcf.specs.Calls.{seen_limit, finite, scale, transform, drain, shingled_point};
ghost use Rattle.trcf.specs.View.{settings_of, settings_from, left_over, counters_unfit, outside_row, head_row, or_else, lengths_short, lent_row, row_of as call_row, lent_by};
ghost use Rattle.trcf.specs.View.{Bounded, Accepted, Ready};
ghost use Rattle.trcf.specs.Steps.Rows.{lengths_row, any_of, spent, overdue, past_row};

use common::deviation::{COUNT_LIMIT, outside_unit};
use refusal::Refusal;
use trcf::head::{
    LentLengths, LentLists, Preprocessor, PreprocessorBuilder, SEEN_LIMIT, block_of, get_dimension,
    head_row, initial_room, statistics_length,
};
use trcf::time::newest_of;
use trcf::transformer::weights_refused;
use trcf::types::{ForestMode, INPUT_LIMIT, SHINGLE_LIMIT, START_BOUND, is_gap, is_normalizing};

// The mode that row 1 refuses, which no letter of a text names.
pub fn is_imputing(m: ForestMode) -> bool
    ensures { result ≡ imputes m }
{
    m == ForestMode::STREAMING_IMPUTE
}

// Rows 1 to 9, also of a head that comes from outside.
#[tactic(auto, unfolding(trcf::specs::Settings::settings_row))]
pub fn settings_row(b: PreprocessorBuilder, weights: &[f32], codes: &[u16]) -> Result<(), Refusal>
    ensures value { row_of result ≡ settings_row (settings_from b weights.now codes.now) }
    ensures accepted { OnOk result (Accepted (settings_from b weights.now codes.now)) }
{
    let d = b.input_dimensions;
    let k = b.shingle_size;
    let start = b.start_normalization;
    if is_imputing(b.forest_mode) {
        return Err(Refusal::StreamingImpute);
    }
    if d == 0 {
        return Err(Refusal::NoChannels);
    }
    if k == 0 {
        return Err(Refusal::NoShingle);
    }
    if INPUT_LIMIT < d || SHINGLE_LIMIT < k {
        return Err(Refusal::TooLarge);
    }
    if weights.len() != d || codes.len() != d {
        return Err(Refusal::WeightsOrCodes);
    }
    if outside_unit(b.transform_decay) {
        return Err(Refusal::Decay);
    }
    if b.stop_normalization < start {
        return Err(Refusal::StartAboveStop);
    }
    if START_BOUND <= start {
        return Err(Refusal::StartTooLarge);
    }
    if weights_refused(b.transform_method, weights) {
        return Err(Refusal::WeightWithoutMethod);
    }
    Ok(())
}

// How many of 16 weights and codes are in use.
pub fn used(d: usize) -> usize
    ensures upper_bound { result ≤ 16 }
    ensures w_value { (w : List Float) → length w ≡ 16 → take result w ≡ take d w }
    ensures by_index { (w : List ℕ) → length w ≡ 16 → take result w ≡ take d w }
{
    d.min(INPUT_LIMIT)
}

// Rows 1 to 9 of a head that comes from outside.
pub fn head_settings_row(head: Preprocessor) -> Result<(), Refusal>
    ensures { row_of result ≡ settings_row (settings_of head) }
{
    let t = head.transformer;
    let weights = t.weights;
    let codes = head.codes;
    let n = used(t.input_length);
    let builder = PreprocessorBuilder {
        forest_mode: head.forest_mode,
        transform_method: t.transform_method,
        input_dimensions: t.input_length,
        shingle_size: head.shingle_size,
        start_normalization: head.start_normalization,
        stop_normalization: head.stop_normalization,
        transform_decay: t.transform_decay,
        weight_time: head.weight_time,
    };
    settings_row(builder, &weights[..n], &codes[..n])
}

// Whether every number is finite.
pub fn all_finite(x: &[f32]) -> bool
    ensures { result ≡ finite x.now }
{
    x.iter().all(|v| v.is_finite())
}

// Whether a reading is to wait until the statistics have begun.
#[tactic(auto, unfolding(trcf::specs::Settings::waiting))]
pub fn is_waiting(head: Preprocessor) -> bool
    ensures { result ≡ waiting (settings_of head) head.values_seen }
{
    is_normalizing(head.transformer.transform_method) && head.values_seen < head.start_normalization
}

// Whether initial values are left that a preprocessor past waiting cannot have.
fn is_left(head: Preprocessor) -> bool
    ensures { result ≡ left_over (settings_of head) head.values_seen head.internal_timestamp head.initial_len }
{
    let n = head.initial_len;
    let start = head.start_normalization;
    if n == 0 {
        return false;
    }
    !is_normalizing(head.transformer.transform_method)
        || n != start
        || (head.values_seen == start && head.internal_timestamp != 0)
}

// Whether the head's counters are such as no preprocessor has.
#[inline(always)]
#[tactic(auto, unfolding(trcf::specs::View::counters_unfit))]
pub fn is_misfit(head: Preprocessor) -> bool
    ensures { result ≡ counters_unfit head }
{
    let seen = head.values_seen;
    let internal = head.internal_timestamp;
    if SEEN_LIMIT < seen || SEEN_LIMIT < internal || COUNT_LIMIT < head.transformer.count {
        return true;
    }
    if !is_waiting(head) {
        return is_left(head);
    }
    head.initial_len != seen || internal != 0
}

// Every row of a head that comes from outside.
#[tactic(auto, using(trcf::proofs::NumberLaws::refused_first), unfolding(trcf::specs::View::outside_row))]
pub fn outside_row(head: Preprocessor) -> Result<(), Refusal>
    ensures { row_of result ≡ outside_row head }
{
    head_settings_row(head)?;
    if is_misfit(head) {
        return Err(Refusal::TooShort);
    }
    Ok(())
}

// Whether a lent list is too short.
#[inline(always)]
#[tactic(auto, using(trcf::proofs::LengthLaws::dimension_known, trcf::proofs::LengthLaws::statistics_known))]
fn is_short(head: Preprocessor, lengths: LentLengths) -> bool
    requires { Bounded (settings_of head) }
    ensures { result ≡ lengths_short (settings_of head) lengths }
{
    let d = head.transformer.input_length;
    let k = head.shingle_size;
    let waiting = initial_room(head);
    if lengths.statistics < statistics_length(d) {
        return true;
    }
    lengths.last_shingled_input < d * k
        || lengths.last_shingled_point < get_dimension(head)
        || lengths.previous_timestamps < k
        || lengths.initial_values < waiting * d
        || lengths.initial_timestamps < waiting
}

// Refused where the head and what is lent do not go together. Inlined by order, with the two that it calls: LLVM leaves it out of line by a hair, and a call of it
// costs each entry some 90 instructions.
#[inline(always)]
#[tactic(auto, unfolding(trcf::specs::Steps::Rows::lengths_row))]
pub(crate) fn lent_row(head: Preprocessor, lengths: LentLengths) -> Result<(), Refusal>
    requires { Bounded (settings_of head) }
    ensures { row_of result ≡ lengths_row head lengths }
{
    if is_misfit(head) || is_short(head, lengths) {
        return Err(Refusal::TooShort);
    }
    Ok(())
}

// The row of a head, or 20 where what is lent does not go with it.
pub fn held_row(head: Preprocessor, lists: LentLists) -> Result<(), Refusal>
    ensures value { row_of result ≡ or_else (head_row (settings_of head)) (lent_row head (lent_by lists.entry)) }
    ensures ready { OnOk result (Ready head (lent_by lists.entry)) }
{
    head_row(head)?;
    lent_row(head, lists.lengths())
}

// The rows of a call that hands nothing but its output. Inlined by order too: out of line it costs scale, shift and the deviations 95 to 155 instructions.
#[inline(always)]
pub fn write_row(head: Preprocessor, lists: LentLists, output: &[f32]) -> Result<(), Refusal>
    ensures value { row_of result ≡ call_row head (lent_by lists.entry) (scale output.now) }
    ensures ready { OnOk result (Ready head (lent_by lists.entry)) }
    ensures head_in_bounds { OnOk result (block (settings_of head) ≤ length output.now) }
{
    head_row(head)?;
    let n = block_of(head.forest_mode, head.transformer.input_length);
    if output.len() < n {
        return Err(Refusal::TooShort);
    }
    lent_row(head, lists.lengths())
}

// Row 28: whether a gap would reach back, past the newest time.
fn is_behind(head: Preprocessor, newest: u64, timestamp: u64) -> bool
    ensures { result ≡ is_gap head.forest_mode && ltb timestamp newest }
{
    is_gap(head.forest_mode) && timestamp < newest
}

pub fn transform_row(
    head: Preprocessor,
    lists: LentLists,
    input: &[f32],
    timestamp: u64,
    output: &[f32],
) -> Result<(), Refusal>
    ensures value { row_of result ≡ call_row head (lent_by lists.entry) (transform input.now timestamp output.now) }
    ensures ready { OnOk result (Ready head (lent_by lists.entry)) }
    ensures input_len { OnOk result (length input.now ≡ head.transformer.input_length) }
    ensures head_in_bounds { OnOk result (block (settings_of head) ≤ length output.now) }
{
    head_row(head)?;
    let d = head.transformer.input_length;
    if input.len() != d {
        return Err(Refusal::InputLength);
    }
    let newest = newest_of(head, lists.previous_timestamps, lists.initial_timestamps);
    if is_behind(head, newest, timestamp) {
        return Err(Refusal::GapFalls);
    }
    let n = block_of(head.forest_mode, d);
    if output.len() < n {
        return Err(Refusal::TooShort);
    }
    lent_row(head, lists.lengths())
}

// Whether one of the first n of m is there.
#[tactic(auto, unfolding(trcf::specs::Steps::Rows::any_of))]
fn is_any(n: usize, m: usize) -> bool
    ensures { result ≡ any_of n m }
{
    n != 0 && 0 < m
}

// Whether a drain comes when nothing waits any more; m times are lent.
#[tactic(auto, unfolding(trcf::specs::Steps::Rows::spent))]
fn is_spent(head: Preprocessor, m: usize) -> bool
    ensures { result ≡ spent head m }
{
    head.values_seen == head.start_normalization && !is_any(head.initial_len, m)
}

// Whether a drain has something to do.
#[tactic(auto, using(trcf::proofs::RowLaws::any_of_lem))]
pub fn is_due(head: Preprocessor, initial_timestamps: &[u64]) -> bool
    ensures { result ≡ eqb head.values_seen head.start_normalization && not (null (take head.initial_len initial_timestamps.now)) }
{
    head.values_seen == head.start_normalization
        && is_any(head.initial_len, initial_timestamps.len())
}

// Whether a drain would pass a limit.
fn is_full(head: Preprocessor) -> bool
    requires { Bounded (settings_of head) }
    ensures { result ≡ ltb count_limit (head.transformer.count + head.start_normalization) || ltb seen_limit (head.internal_timestamp + head.start_normalization) }
{
    let count = head.transformer.count;
    let internal = head.internal_timestamp;
    let start = head.start_normalization;
    COUNT_LIMIT < count
        || COUNT_LIMIT < count + start as u64
        || SEEN_LIMIT < internal
        || SEEN_LIMIT < internal + start
}

// Whether a drain that has something to do would pass a limit; m times are lent.
#[tactic(auto, unfolding(trcf::specs::Steps::Rows::overdue))]
fn is_overdue(head: Preprocessor, m: usize) -> bool
    requires { Bounded (settings_of head) }
    ensures { result ≡ overdue head m }
{
    head.values_seen == head.start_normalization && is_any(head.initial_len, m) && is_full(head)
}

pub fn drain_row(head: Preprocessor, lists: LentLists) -> Result<(), Refusal>
    ensures value { row_of result ≡ call_row head (lent_by lists.entry) drain }
    ensures ready { OnOk result (Ready head (lent_by lists.entry)) }
{
    head_row(head)?;
    let m = lists.initial_timestamps.len();
    if is_spent(head, m) {
        return Err(Refusal::NothingToDrain);
    }
    if is_overdue(head, m) {
        return Err(Refusal::CounterLimit);
    }
    lent_row(head, lists.lengths())
}

pub fn shingled_point_row(
    head: Preprocessor,
    lists: LentLists,
    input: &[f32],
    timestamp: u64,
    output: &[f32],
) -> Result<(), Refusal>
    ensures value { row_of result ≡ call_row head (lent_by lists.entry) (shingled_point input.now timestamp output.now) }
    ensures ready { OnOk result (Ready head (lent_by lists.entry)) }
{
    head_row(head)?;
    if input.len() != head.transformer.input_length {
        return Err(Refusal::InputLength);
    }
    let newest = newest_of(head, lists.previous_timestamps, lists.initial_timestamps);
    if !all_finite(input) {
        return Err(Refusal::NotFinite);
    }
    if is_behind(head, newest, timestamp) {
        return Err(Refusal::GapFalls);
    }
    past_row(head, lists.initial_timestamps.len(), output.len())?;
    lent_row(head, lists.lengths())
}

// Rows 18 and 20 of a point, past waiting; m times are lent, and the output is of n.
#[tactic(auto, using(trcf::proofs::LengthLaws::dimension_known), unfolding(trcf::specs::Steps::Rows::past_row))]
fn past_row(head: Preprocessor, m: usize, n: usize) -> Result<(), Refusal>
    requires { Bounded (settings_of head) }
    ensures { row_of result ≡ past_row head m n }
{
    if is_waiting(head) {
        return Ok(());
    }
    if is_overdue(head, m) {
        return Err(Refusal::CounterLimit);
    }
    if n < get_dimension(head) {
        return Err(Refusal::TooShort);
    }
    Ok(())
}
