// `save` (document 01: putting away): the snapshot of a preprocessor, written into lent bytes.
ghost use Rattle.std.specs.Prelude.{◌≡◌, not, ◌&&◌, ◌||◌, map, ◌++◌, eqb, ◌+◌, ◌*◌, ◌≤◌, ◌<◌, length};
ghost use Rattle.trcf.specs.Types.{method_number, mode_letter};
ghost use Rattle.trcf.specs.View.{lent_by, settings_of};
ghost use Rattle.snapshot.specs.Text.{whole, chn_line};
ghost use Rattle.trcf.specs.Calls.{finite};
ghost use Rattle.snapshot.specs.Read.{bytes_of_line, climbs, zeros};
ghost use Rattle.snapshot.specs.Steps.Write.{Wrote, tabbed};
ghost use Rattle.snapshot.specs.Save.{saved_told, fitted, held_save, save_of};
ghost use Rattle.snapshot.specs.Steps.TwoParts.{head_bytes, list_bytes};

use crate::write::{
    buf_lines, chn_line, cnt_line, dev_lines, set_line, singles_line, tim_line, whole_length,
};
use refusal::Refusal;
use snapshot::limits::{is_past, time_width};
use snapshot::values::{all_zero, none_falls};
use trcf::head::{LentLists, Preprocessor, statistics_length};
use trcf_rows::rows::{all_finite, head_settings_row, is_misfit};

// How many bytes whole numbers take, each after its tab.
fn wholes_length(v: &[u64]) -> usize
    requires { length v.now ≤ 2000 }
    ensures value { result ≡ length (tabbed (map whole v.now)) }
    ensures upper_bound { result ≤ 42000 }
{
    let mut l: usize = 0;
    for n in v {
        l += 1 + whole_length(*n);
    }
    l
}

// The codes as wider numbers.
fn widened(codes: [u16; 16]) -> [u64; 16]
    ensures { result ≡ codes }
{
    let mut a = [0u64; 16];
    for i in 0..16 {
        a[i] = codes[i] as u64;
    }
    a
}

// How many bytes the codes take, each after its tab.
fn codes_length(head: Preprocessor) -> usize
    requires { head.transformer.input_length ≤ 16 }
    ensures value { result ≡ length (tabbed (map whole (settings_of head).codes)) }
    ensures upper_bound { result ≤ 42000 }
{
    let t = head.transformer;
    let d = t.input_length;
    let own = head.codes;
    let wide = widened(own);
    wholes_length(&wide[..d])
}

// How many bytes the lines of the settings, the weights, the codes and the counters take.
fn head_length(head: Preprocessor) -> usize
    requires { head.transformer.input_length ≤ 16 }
    ensures value { result ≡ length (head_bytes (settings_of head) head.values_seen head.internal_timestamp head.transformer.count) }
    ensures upper_bound { result ≤ 50000 }
{
    let t = head.transformer;
    let d = t.input_length;
    let method = t.transform_method;
    let a = whole_length(u64::from(method))
        + whole_length(d as u64)
        + whole_length(head.shingle_size as u64);
    let b = whole_length(head.start_normalization as u64)
        + whole_length(head.stop_normalization as u64);
    let c = whole_length(head.values_seen as u64)
        + whole_length(head.internal_timestamp as u64)
        + whole_length(t.count);
    a + b + c + 52 + 9 * d + codes_length(head)
}

// How many bytes the lines of lent lists take, of which all is in use.
fn lists_length(d: usize, lists: LentLists) -> usize
    requires d_bound { d ≤ 16 }
    requires statistics_len_bound { length lists.statistics.now ≤ 2000 }
    requires input_len_bound { length lists.last_shingled_input.now ≤ 2000 }
    requires point_len_bound { length lists.last_shingled_point.now ≤ 2000 }
    requires times_len_bound { length lists.previous_timestamps.now ≤ 2000 }
    requires initial_len_bound { length lists.initial_timestamps.now ≤ 2000 }
    requires d_in_bounds { length lists.initial_timestamps.now * d ≤ length lists.initial_values.now }
    ensures value { result ≡ length (list_bytes d lists.entry.statistics.now lists.entry.last_shingled_input.now lists.entry.last_shingled_point.now
        lists.entry.previous_timestamps.now lists.entry.initial_values.now lists.entry.initial_timestamps.now) }
    ensures upper_bound { result ≤ 500000 }
{
    let a = 55 * (lists.statistics.len() / 3)
        + 9 * lists.last_shingled_input.len()
        + 9 * lists.last_shingled_point.len()
        + 12;
    let b = wholes_length(lists.previous_timestamps) + wholes_length(lists.initial_timestamps);
    a + b + lists.initial_timestamps.len() * (4 + 9 * d)
}

// The line of the codes.
fn write_codes(out: &mut [u8], at: usize, head: Preprocessor) -> usize
    requires input_length_bound { head.transformer.input_length ≤ 16 }
    requires head_in_bounds { at + length (bytes_of_line (chn_line (settings_of head).codes)) ≤ length out.old }
    ensures { Wrote at (bytes_of_line (chn_line (settings_of head).codes)) out.old result out.new }
{
    let t = head.transformer;
    let d = t.input_length;
    let own = head.codes;
    let wide = widened(own);
    chn_line(out, at, &wide[..d])
}

// The lines of the settings, the weights, the codes and the counters.
fn write_head(out: &mut [u8], head: Preprocessor) -> usize
    requires input_length_bound { head.transformer.input_length ≤ 16 }
    requires count_in_bounds { length (head_bytes (settings_of head) head.values_seen head.internal_timestamp head.transformer.count) ≤ length out.old }
    ensures { Wrote 0 (head_bytes (settings_of head) head.values_seen head.internal_timestamp head.transformer.count) out.old result out.new }
{
    let t = head.transformer;
    let d = t.input_length;
    let weights = t.weights;
    let p = set_line(out, 0, head);
    let q = singles_line(out, p, *b"wgt", &weights[..d]);
    let r = write_codes(out, q, head);
    cnt_line(
        out,
        r,
        head.values_seen as u64,
        head.internal_timestamp as u64,
        t.count,
    )
}

// The lines of the lent lists, of which all is in use.
fn write_lists(out: &mut [u8], at: usize, d: usize, lists: LentLists) -> usize
    requires d_in_bounds { length lists.initial_timestamps.now * d ≤ length lists.initial_values.now }
    requires initial_in_bounds { at + length (list_bytes d lists.statistics.now lists.last_shingled_input.now lists.last_shingled_point.now
        lists.previous_timestamps.now lists.initial_values.now lists.initial_timestamps.now) ≤ length out.old }
    ensures { Wrote at (list_bytes d lists.entry.statistics.now lists.entry.last_shingled_input.now lists.entry.last_shingled_point.now
        lists.entry.previous_timestamps.now lists.entry.initial_values.now lists.entry.initial_timestamps.now) out.old result out.new }
{
    let p = dev_lines(out, at, lists.statistics);
    let q = singles_line(out, p, *b"inp", lists.last_shingled_input);
    let r = singles_line(out, q, *b"pnt", lists.last_shingled_point);
    let s = tim_line(out, r, lists.previous_timestamps);
    buf_lines(out, s, d, lists.initial_values, lists.initial_timestamps)
}

// The text of a head and of lent lists of which all is in use, where it fits.
fn save_parts(head: Preprocessor, lists: LentLists, out: &mut [u8]) -> Result<usize, Refusal>
    requires input_length_bound { head.transformer.input_length ≤ 16 }
    requires statistics_len_bound { length lists.statistics.now ≤ 2000 }
    requires input_len_bound { length lists.last_shingled_input.now ≤ 2000 }
    requires point_len_bound { length lists.last_shingled_point.now ≤ 2000 }
    requires times_len_bound { length lists.previous_timestamps.now ≤ 2000 }
    requires initial_len_bound { length lists.initial_timestamps.now ≤ 2000 }
    requires input_length_in_bounds { length lists.initial_timestamps.now * head.transformer.input_length ≤ length lists.initial_values.now }
    ensures { saved_told result out.new ≡ fitted
        (head_bytes (settings_of head) head.values_seen head.internal_timestamp head.transformer.count ++
        list_bytes head.transformer.input_length lists.entry.statistics.now lists.entry.last_shingled_input.now lists.entry.last_shingled_point.now
        lists.entry.previous_timestamps.now lists.entry.initial_values.now lists.entry.initial_timestamps.now) out.old }
{
    let t = head.transformer;
    let d = t.input_length;
    let l = head_length(head) + lists_length(d, lists);
    if out.len() < l {
        return Err(Refusal::TooShort);
    }
    let p = write_head(out, head);
    write_lists(out, p, d, lists);
    Ok(l)
}

// Whether times and initial values are not such as a text has.
fn is_unformed(internal: usize, lists: LentLists) -> bool
    ensures { result ≡ not (climbs 0 lists.entry.previous_timestamps.now)
        || ((eqb internal 0 && not (zeros lists.entry.previous_timestamps.now))
        || (not (finite lists.entry.initial_values.now) || not (climbs 0 lists.entry.initial_timestamps.now))) }
{
    !none_falls(lists.previous_timestamps)
        || internal == 0 && !all_zero(lists.previous_timestamps)
        || !all_finite(lists.initial_values)
        || !none_falls(lists.initial_timestamps)
}

// The text of a head whose own rows are 0, and its length; TooShort where out is shorter than the text, or a lent list shorter than what is in use of it;
// Form where that has not the form of a text.
fn save_held(head: Preprocessor, lists: LentLists, out: &mut [u8]) -> Result<usize, Refusal>
    ensures { saved_told result out.new ≡ held_save head (lent_by lists.entry) out.old }
{
    let t = head.transformer;
    let mode = head.forest_mode;
    let d = t.input_length;
    let k = head.shingle_size;
    let n = head.initial_len;
    let internal = head.internal_timestamp;
    let w = time_width(mode);
    if is_past(d, k, w, n, lists.lengths()) {
        return Err(Refusal::TooShort);
    }
    let statistics = &lists.statistics[..statistics_length(d)];
    let last_shingled_input = &lists.last_shingled_input[..d * k];
    let last_shingled_point = &lists.last_shingled_point[..(d + w) * k];
    let previous_timestamps = &lists.previous_timestamps[..k];
    let initial_values = &lists.initial_values[..n * d];
    let initial_timestamps = &lists.initial_timestamps[..n];
    let used = LentLists {
        statistics,
        last_shingled_input,
        last_shingled_point,
        previous_timestamps,
        initial_values,
        initial_timestamps,
    };
    if is_unformed(internal, used) {
        return Err(Refusal::Form);
    }
    save_parts(head, used, out)
}

// The snapshot of what head and the lent lists hold, and its length. What could not be taken up again is not put away: the refusal of the settings, Form
// for counters, times or initial values that no text has, TooShort where a lent list or out is too short; nothing is written then.
pub fn save(head: Preprocessor, lists: LentLists, out: &mut [u8]) -> Result<usize, Refusal>
    ensures { saved_told result out.new ≡ save_of head (lent_by lists.entry) out.old }
{
    head_settings_row(head)?;
    if is_misfit(head) {
        return Err(Refusal::Form);
    }
    save_held(head, lists, out)
}
