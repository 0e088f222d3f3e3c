// `restore` (document 01: taking up): the whole text is judged first, and then the lent lists are filled.
// Kept: (d) a text and a place, as in snapshot/src/piece.rt, which says why.
ghost use Rattle.std.specs.Prelude.{◌≡◌, cond, ◌+◌, ◌*◌, ◌≤◌, length, drop, IfOk, IfErr, OnOk};
ghost use Rattle.trcf.specs.Types.{augments};
ghost use Rattle.refusal.specs.Refusal.{number_of};
ghost use Rattle.trcf.specs.View.{lent, settings_of, initial_room};
ghost use Rattle.trcf.specs.Settings.{dimension};
ghost use Rattle.snapshot.specs.Read.{same};
ghost use Rattle.snapshot.specs.Save.{past};
ghost use Rattle.snapshot.specs.Restore.{restore_of};
ghost use Rattle.snapshot.specs.Steps.Runs.{ran_by, Fills, Room, FillsOver, HeadFew, counts_in, expected, unkept, parts, initial_lists, body, parts_of, body_by, Good, filled_by};
ghost use Rattle.snapshot_restore.specs.Steps.{summed};
ghost use Rattle.snapshot_restore.specs.Told.{restore_told, row_told, line_told};
ghost use Rattle.snapshot_restore.specs.declared.restore.RestoreError.TheVariants.{Form, Refused};

use crate::codes::same_codes;
use crate::lines::{buf_lines, buf_lines_unkept, part_lines};
use refusal::Refusal;
use snapshot::head::{BadLine, head_lines};
use snapshot::kinds::is_waiting;
use snapshot::limits::{is_past, time_width};
use trcf::head::{LentLengths, Preprocessor, initial_room, statistics_length};
use trcf::types::is_normalizing;

// How many `buf` lines are to come, from the place after `tim` on.
fn initial_count(head: Preprocessor, text: &[u8], at: usize) -> usize
    ensures { result ≡ expected (settings_of head) (counts_in head) (drop at text.now) }
{
    let t = head.transformer;
    let method = t.transform_method;
    let start = head.start_normalization;
    let seen = head.values_seen;
    if is_waiting(method, start, seen as u64) {
        return seen;
    }
    if !is_normalizing(method) || text.len() <= at {
        return 0;
    }
    if seen != start || head.internal_timestamp == 0 {
        return start;
    }
    0
}

// The lines from `dev` to `tim`, of which nothing is kept.
fn part_lines_unkept(text: &[u8], at: usize, head: Preprocessor) -> Result<usize, BadLine>
    requires input_length_bound { head.transformer.input_length ≤ 16 }
    requires shingle_size_bound { head.shingle_size ≤ 64 }
    ensures text_value { ran_by result tt text.now ≡ unkept (parts_of (settings_of head) (counts_in head) (drop at text.now)) }
    ensures bad_bound { IfErr result (λ bad. bad.line ≤ 88) }
{
    let t = head.transformer;
    let d = t.input_length;
    let k = head.shingle_size;
    let mode = head.forest_mode;
    let lines = 5 * d + 5;
    let w = d + time_width(mode);
    let mut statistics = [0.0f64; 255];
    let mut input = [0.0f32; 1024];
    let mut point = [0.0f32; 1088];
    let mut times = [0u64; 64];
    part_lines(
        text,
        at,
        head.internal_timestamp,
        lines,
        &mut statistics[..lines * 3],
        &mut input[..d * k],
        &mut point[..w * k],
        &mut times[..k],
    )
}

// Judges the lines after `cnt`: how many initial values there are, or the first bad line.
fn judge_body(text: &[u8], at: usize, head: Preprocessor) -> Result<usize, BadLine>
    requires { HeadFew head }
    ensures value { result ≡ summed (body_by (settings_of head) (counts_in head) (drop at text.now)) }
    ensures bad_bound { IfErr result (λ bad. bad.line ≤ 3000) }
    ensures count_bound { IfOk result (λ count. count ≤ initial_room (settings_of head)) }
    ensures good { OnOk result (Good (body_by (settings_of head) (counts_in head) (drop at text.now))) }
{
    let p = part_lines_unkept(text, at, head)?;
    let d = head.transformer.input_length;
    let before = 5 * d + 8;
    let n = initial_count(head, text, p);
    match buf_lines_unkept(text, p, d, n) {
        Err(bad) => Err(BadLine {
            line: before + bad.line,
        }),
        Ok(end) => {
            if end < text.len() {
                return Err(BadLine {
                    line: before + n + 1,
                });
            }
            Ok(n)
        }
    }
}

// The lines after `cnt` of a text that was judged, into lists of which all is in use.
fn fill_body(
    text: &[u8],
    at: usize,
    head: Preprocessor,
    n: usize,
    statistics: &mut [f64],
    input: &mut [f32],
    point: &mut [f32],
    times: &mut [u64],
    values: &mut [f32],
    initial_times: &mut [u64],
)
    requires input_length_bound { head.transformer.input_length ≤ 16 }
    requires n_bound { n ≤ 2000 }
    requires statistics_len { length statistics.old ≡ (5 * head.transformer.input_length + 5) * 3 }
    requires input_len { length input.old ≡ head.transformer.input_length * head.shingle_size }
    requires point_len { length point.old ≡ dimension (settings_of head) }
    requires times_len { length times.old ≡ head.shingle_size }
    requires values_len { length values.old ≡ n * head.transformer.input_length }
    requires initial_times_len { length initial_times.old ≡ n }
    ensures { Fills (filled_by (settings_of head) (counts_in head) n (drop at text.now)) (body (parts statistics.new input.new point.new times.new) (initial_lists values.new initial_times.new)) }
{
    let d = head.transformer.input_length;
    let parts = part_lines(
        text,
        at,
        head.internal_timestamp,
        5 * d + 5,
        statistics,
        input,
        point,
        times,
    );
    if let Ok(p) = parts {
        let _lines = buf_lines(text, p, d, n, values, initial_times);
    }
}

// The same into lent lists, of which what lies after the part in use stays.
fn fill(
    text: &[u8],
    at: usize,
    head: Preprocessor,
    n: usize,
    statistics: &mut [f64],
    last_shingled_input: &mut [f32],
    last_shingled_point: &mut [f32],
    previous_timestamps: &mut [u64],
    initial_values: &mut [f32],
    initial_timestamps: &mut [u64],
)
    requires { Room head n (length statistics.old) (length last_shingled_input.old) (length last_shingled_point.old)
        (length previous_timestamps.old) (length initial_values.old) (length initial_timestamps.old) }
    ensures { FillsOver (settings_of head) (counts_in head) (filled_by (settings_of head) (counts_in head) n (drop at text.now))
        (lent statistics.old last_shingled_input.old last_shingled_point.old previous_timestamps.old initial_values.old initial_timestamps.old)
        (lent statistics.new last_shingled_input.new last_shingled_point.new previous_timestamps.new initial_values.new initial_timestamps.new) }
{
    let t = head.transformer;
    let d = t.input_length;
    let k = head.shingle_size;
    let mode = head.forest_mode;
    let w = d + time_width(mode);
    fill_body(
        text,
        at,
        head,
        n,
        &mut statistics[..statistics_length(d)],
        &mut last_shingled_input[..d * k],
        &mut last_shingled_point[..w * k],
        &mut previous_timestamps[..k],
        &mut initial_values[..n * d],
        &mut initial_timestamps[..n],
    );
}

// Whether a lent list of these lengths is too short for the state that a head is of.
fn is_short(head: Preprocessor, lengths: LentLengths) -> bool
    ensures { result ≡ past head.transformer.input_length head.shingle_size (cond (augments head.forest_mode) 1 0)
        (initial_room (settings_of head)) lengths.statistics lengths.last_shingled_input lengths.last_shingled_point
        lengths.previous_timestamps lengths.initial_values lengths.initial_timestamps }
{
    let d = head.transformer.input_length;
    let wide = time_width(head.forest_mode);
    let waiting = initial_room(head);
    is_past(d, head.shingle_size, wide, waiting, lengths)
}

// Whether the codes of a head are those expected.
fn codes_agree(head: Preprocessor, codes: &[u16]) -> bool
    requires { HeadFew head }
    ensures { result ≡ same (settings_of head).codes codes.now }
{
    let t = head.transformer;
    let d = t.input_length;
    let own = head.codes;
    same_codes(&own[..d], codes)
}

/// Why a text is not taken up.
#[derive(Clone, Copy, Debug, PartialEq, Eq)]
pub enum RestoreError {
    /// it has not the form of a text, from this line on
    Form(BadLine),
    /// its codes are others than those expected, or a lent list is too short for it, or whoever asks may not
    Refused(Refusal),
}

impl From<BadLine> for RestoreError {
    ghost from_gives = { λ bad e. e ≡ Form bad };

    fn from(bad: BadLine) -> RestoreError {
        RestoreError::Form(bad)
    }
}

impl From<Refusal> for RestoreError {
    ghost from_gives = { λ refusal e. e ≡ Refused refusal };

    fn from(refusal: Refusal) -> RestoreError {
        RestoreError::Refused(refusal)
    }
}

impl RestoreError {
    /// The row of the table of refusals.
    pub fn refusal(self) -> Refusal
        ensures { number_of result ≡ row_told self }
    {
        match self {
            RestoreError::Form(_) => Refusal::Form,
            RestoreError::Refused(refusal) => refusal,
        }
    }

    /// The first bad line, counted from 1; 0 where no line is bad, as a number outside says it.
    pub fn line(self) -> usize
        ensures { result ≡ line_told self }
    {
        match self {
            RestoreError::Form(bad) => bad.line,
            RestoreError::Refused(_) => 0,
        }
    }
}

// Takes up a text: the head and the filled lists; or Form with the bad line, or OtherCodes where the codes are others than those expected, or
// TooShort where a lent list is too short, with everything lent unchanged.
pub fn restore(
    text: &[u8],
    codes: &[u16],
    statistics: &mut [f64],
    last_shingled_input: &mut [f32],
    last_shingled_point: &mut [f32],
    previous_timestamps: &mut [u64],
    initial_values: &mut [f32],
    initial_timestamps: &mut [u64],
) -> Result<Preprocessor, RestoreError>
    ensures { restore_told result
        (lent statistics.new last_shingled_input.new last_shingled_point.new previous_timestamps.new initial_values.new initial_timestamps.new) ≡
        restore_of text.now codes.now
        (lent statistics.old last_shingled_input.old last_shingled_point.old previous_timestamps.old initial_values.old initial_timestamps.old) }
{
    let h = head_lines(text)?;
    let head = h.head;
    let n = match judge_body(text, h.at, head) {
        Ok(n) => n,
        Err(bad) => return Err(RestoreError::Form(BadLine {
            line: 3 + h.extra + bad.line,
        })),
    };
    if !codes_agree(head, codes) {
        return Err(RestoreError::Refused(Refusal::OtherCodes));
    }
    let lengths = LentLengths {
        statistics: statistics.len(),
        last_shingled_input: last_shingled_input.len(),
        last_shingled_point: last_shingled_point.len(),
        previous_timestamps: previous_timestamps.len(),
        initial_values: initial_values.len(),
        initial_timestamps: initial_timestamps.len(),
    };
    if is_short(head, lengths) {
        return Err(RestoreError::Refused(Refusal::TooShort));
    }
    fill(
        text,
        h.at,
        head,
        n,
        statistics,
        last_shingled_input,
        last_shingled_point,
        previous_timestamps,
        initial_values,
        initial_timestamps,
    );
    let taken = Preprocessor {
        initial_len: n,
        ..head
    };
    Ok(taken)
}
