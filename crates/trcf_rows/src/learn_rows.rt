// Which row refuses a post_process. Nothing here writes.
ghost use Rattle.std.specs.Prelude.{◌≡◌, not, ◌&&◌, ◌||◌, ltb, leb, eqb, length, is_some, OnOk};
ghost use Rattle.std.specs.Float.Ieee.{lt};
ghost use Rattle.refusal.specs.Refusal.{row_of};
ghost use Rattle.common.specs.Deviation.{count_limit};
ghost use Rattle.trcf.specs.Transformer.{zero32};
ghost use Rattle.trcf.specs.Calls.{seen_limit, post_process};
ghost use Rattle.trcf.specs.View.{settings_of, row_of as call_row, lent_by, learn_call, back_of, Bounded, Ready};
ghost use Rattle.trcf.specs.Steps.Rows.{input_row, waiting_row, learn_row, learning_row};
ghost use Rattle.trcf_rows.specs.Given.{list_in};

use crate::rows::{all_finite, is_waiting, lent_row};
use common::deviation::COUNT_LIMIT;
use refusal::Refusal;
use trcf::head::{LentLists, Preprocessor, SEEN_LIMIT, block_of, get_dimension, head_row};
use trcf::time::newest_of;

// How many readings before the newest; beyond every shingle for one that is to come.
// Kept: (d) 64 lies outside every shingle, so row 14 needs no second test, as it would of an Option.
pub fn places_back(relative_index: i32) -> usize
    ensures { result ≡ back_of relative_index }
{
    if relative_index > 0 {
        return 64;
    }
    let wide = relative_index as i64;
    (0 - wide) as usize
}

// Rows 10 to 12.
#[tactic(auto, unfolding(trcf::specs::Steps::Rows::input_row))]
fn input_row(
    head: Preprocessor,
    n: usize,
    finite: bool,
    newest: u64,
    timestamp: u64,
) -> Result<(), Refusal>
    ensures { row_of result ≡ input_row head n finite newest timestamp }
{
    if n != head.transformer.input_length {
        return Err(Refusal::InputLength);
    }
    if !finite {
        return Err(Refusal::NotFinite);
    }
    if timestamp < newest {
        return Err(Refusal::TimeFalls);
    }
    Ok(())
}

// Whether a list is given and not n long.
fn is_wrong(list: Option<&[f32]>, n: usize) -> bool
    ensures { result ≡ is_some list.entry && not (eqb (length (list_in list.entry)) n) }
{
    list.is_some_and(|v| v.len() != n)
}

// Whether an anomaly lies outside the shingle.
fn is_misplaced(grade: f32, back: usize, k: usize) -> bool
    ensures { result ≡ lt zero32 grade && leb k back }
{
    grade > 0.0 && k <= back
}

fn is_count_full(head: Preprocessor) -> bool
    ensures { result ≡ ltb head.values_seen head.stop_normalization && leb count_limit head.transformer.count }
{
    head.values_seen < head.stop_normalization && COUNT_LIMIT <= head.transformer.count
}

// Whether a learn would pass a limit.
fn is_full(head: Preprocessor) -> bool
    ensures { result ≡ (ltb head.values_seen head.stop_normalization && leb count_limit head.transformer.count) || (leb seen_limit head.values_seen || leb seen_limit head.internal_timestamp) }
{
    is_count_full(head) || SEEN_LIMIT <= head.values_seen || SEEN_LIMIT <= head.internal_timestamp
}

// Whether the outputs of an anomaly are too short.
fn is_anomaly_short(
    grade: f32,
    expected: Option<&[f32]>,
    d: usize,
    past_out: usize,
    expected_out: usize,
) -> bool
    ensures { result ≡ (lt zero32 grade && is_some expected.entry) && (ltb past_out d || ltb expected_out d) }
{
    grade > 0.0 && expected.is_some() && (past_out < d || expected_out < d)
}

// Rows 13, 14, 18 and 20, past waiting.
#[tactic(auto, using(trcf::proofs::LengthLaws::block_known, trcf::proofs::LengthLaws::dimension_known), unfolding(trcf::specs::Steps::Rows::learn_row, trcf::specs::Settings::block))]
fn learn_row(
    head: Preprocessor,
    y: Option<&[f32]>,
    expected: Option<&[f32]>,
    grade: f32,
    back: usize,
    deviations_out: usize,
    past_out: usize,
    expected_out: usize,
) -> Result<(), Refusal>
    requires { Bounded (settings_of head) }
    ensures { row_of result ≡ learn_row head (length (list_in y.entry)) (is_some y.entry) (length (list_in expected.entry)) (is_some expected.entry) grade back deviations_out past_out expected_out }
{
    let d = head.transformer.input_length;
    let m = get_dimension(head);
    if is_wrong(y, m) || is_wrong(expected, m) {
        return Err(Refusal::PointLength);
    }
    if y.is_none() {
        return Ok(());
    }
    if is_misplaced(grade, back, head.shingle_size) {
        return Err(Refusal::RelativeIndex);
    }
    if is_full(head) {
        return Err(Refusal::CounterLimit);
    }
    if deviations_out < block_of(head.forest_mode, d)
        || is_anomaly_short(grade, expected, d, past_out, expected_out)
    {
        return Err(Refusal::TooShort);
    }
    Ok(())
}

// Rows 18 and 20 while waiting.
#[tactic(auto, using(trcf::proofs::LengthLaws::block_known), unfolding(trcf::specs::Steps::Rows::waiting_row, trcf::specs::Settings::block))]
fn waiting_row(head: Preprocessor, deviations_out: usize) -> Result<(), Refusal>
    requires { Bounded (settings_of head) }
    ensures { row_of result ≡ waiting_row head deviations_out }
{
    if SEEN_LIMIT <= head.values_seen {
        return Err(Refusal::CounterLimit);
    }
    let b = block_of(head.forest_mode, head.transformer.input_length);
    if head.values_seen + 1 == head.start_normalization && deviations_out < b {
        return Err(Refusal::TooShort);
    }
    Ok(())
}

// Rows 13 to 20.
#[tactic(auto, unfolding(trcf::specs::Steps::Rows::learning_row))]
fn learning_row(
    head: Preprocessor,
    y: Option<&[f32]>,
    expected: Option<&[f32]>,
    grade: f32,
    back: usize,
    deviations_out: usize,
    past_out: usize,
    expected_out: usize,
) -> Result<(), Refusal>
    requires { Bounded (settings_of head) }
    ensures { row_of result
        ≡ learning_row head (length (list_in y.entry)) (is_some y.entry) (length (list_in expected.entry)) (is_some expected.entry) grade back deviations_out past_out expected_out }
{
    if is_waiting(head) {
        return waiting_row(head, deviations_out);
    }
    learn_row(
        head,
        y,
        expected,
        grade,
        back,
        deviations_out,
        past_out,
        expected_out,
    )
}

pub fn post_process_row(
    head: Preprocessor,
    lists: LentLists,
    input: &[f32],
    timestamp: u64,
    y: Option<&[f32]>,
    expected: Option<&[f32]>,
    grade: f32,
    relative_index: i32,
    deviations_out: &[f32],
    past_out: &[f32],
    expected_out: &[f32],
) -> Result<(), Refusal>
    ensures value { row_of result
        ≡ call_row head (lent_by lists.entry) (post_process (learn_call input.now timestamp (is_some y.entry) (list_in y.entry)
        (is_some expected.entry) (list_in expected.entry) grade relative_index deviations_out.now past_out.now expected_out.now)) }
    ensures ready { OnOk result (Ready head (lent_by lists.entry)) }
{
    head_row(head)?;
    let finite = all_finite(input);
    let newest = newest_of(head, lists.previous_timestamps, lists.initial_timestamps);
    input_row(head, input.len(), finite, newest, timestamp)?;
    let back = places_back(relative_index);
    learning_row(
        head,
        y,
        expected,
        grade,
        back,
        deviations_out.len(),
        past_out.len(),
        expected_out.len(),
    )?;
    lent_row(head, lists.lengths())
}
