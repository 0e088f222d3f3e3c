// What each call line does and prints, on a preprocessor and the last point. The bench runs as role 0 of a table with every right.
// Kept: (d) `65536 ≤ length out.old` is asked in each contract: with `&mut [u8; 65536]` it would go, but `step` and `finish`, which take an output of any length and refuse a short one,
// promise the whole of it, so what each function here promises of the first 65,536 bytes would have to be carried over to the whole.
ghost use Rattle.std.specs.Prelude.{◌≡◌, List, ◌≤◌, Float, length, take};
ghost use Rattle.refusal.specs.Refusal.{number_of};
ghost use Rattle.trcf.specs.View.{Lent, lent, lent_by};
ghost use Rattle.bench_core.specs.Bench.{no_text, ok_text, point_text, dimension_of, output, prints, call_result, call_printed, prints_call, point_result, learn_result, drain_result, save_prints};

use access::calls::{drain, post_process, shingled_point};
use access::rights::every_right;
use access::snapshots::save;
use refusal::Refusal;
use snapshot_save::line::{singles_line, whole_line};
use trcf::head::{LentLists, Preprocessor, get_dimension};

// The head after a line, whether a point was ever given, and how many bytes are written.
#[derive(Clone, Copy)]
pub struct Answered {
    pub head: Preprocessor,
    pub given: bool,
    pub length: usize,
}

// `no` and the number of the refusal.
pub(crate) fn print_no(out: &mut [u8], refusal: Refusal) -> usize
    requires { 65536 ≤ length out.old }
    ensures { output result out.new ≡ prints (no_text (number_of refusal)) out.old }
{
    whole_line(out, b'n', b'o', u64::from(refusal)).unwrap_or(0)
}

fn print_text(out: &mut [u8], text: &[u8]) -> usize
    requires { length text.now ≤ length out.old }
    ensures { output result out.new ≡ prints text.now out.old }
{
    out[..text.len()].copy_from_slice(text);
    text.len()
}

// `pt` and the part of the point that is in use.
fn print_point(head: Preprocessor, point: &[f32], out: &mut [u8]) -> usize
    requires { 65536 ≤ length out.old }
    ensures { output result out.new ≡ prints (point_text (take (dimension_of head) point.now)) out.old }
{
    let n = get_dimension(head).min(point.len());
    singles_line(out, b'p', b't', &point[..n]).unwrap_or(0)
}

// After a call that leaves a head and prints no more than that it went well.
fn accepted(out: &mut [u8], head: Preprocessor, given: bool) -> Answered
    requires { 65536 ≤ length out.old }
    ensures { (l : Lent) (y : List Float) → call_printed result.head result.given l y (output result.length out.new) ≡ prints_call (call_result head given l y ok_text) out.old }
{
    Answered {
        head,
        given,
        length: print_text(out, b"ok\n"),
    }
}

// After a call that is refused, and leaves the head as it was.
fn refused(out: &mut [u8], head: Preprocessor, given: bool, refusal: Refusal) -> Answered
    requires { 65536 ≤ length out.old }
    ensures { (l : Lent) (y : List Float) → call_printed result.head result.given l y (output result.length out.new)
        ≡ prints_call (call_result head given l y (no_text (number_of refusal))) out.old }
{
    Answered {
        head,
        given,
        length: print_no(out, refusal),
    }
}

// `p`: the point, which is the last one from now on; `none` while waiting; or the row.
pub(crate) fn call_point(
    head: Preprocessor,
    given: bool,
    statistics: &mut [f64],
    last_shingled_input: &mut [f32],
    last_shingled_point: &mut [f32],
    previous_timestamps: &mut [u64],
    initial_values: &[f32],
    initial_timestamps: &[u64],
    input: &[f32],
    timestamp: u64,
    point: &mut [f32],
    out: &mut [u8],
) -> Answered
    requires { 65536 ≤ length out.old }
    ensures { call_printed result.head result.given
        (lent statistics.new last_shingled_input.new last_shingled_point.new previous_timestamps.new initial_values.now initial_timestamps.now) point.new (output result.length out.new)
        ≡ prints_call (point_result head given
        (lent statistics.old last_shingled_input.old last_shingled_point.old previous_timestamps.old initial_values.now initial_timestamps.now) point.old input.now timestamp) out.old }
{
    let answer = shingled_point(
        &every_right(),
        0,
        head,
        statistics,
        last_shingled_input,
        last_shingled_point,
        previous_timestamps,
        initial_values,
        initial_timestamps,
        input,
        timestamp,
        point,
    );
    match answer {
        Ok(next) if next.given => Answered {
            head: next.head,
            given: true,
            length: print_point(next.head, point, out),
        },
        Ok(next) => Answered {
            head: next.head,
            given,
            length: print_text(out, b"none\n"),
        },
        Err(refusal) => refused(out, head, given, refusal),
    }
}

// `l`: y is the last point that a `p` gave, if any; grade 0.
pub(crate) fn call_learn(
    head: Preprocessor,
    given: bool,
    statistics: &mut [f64],
    last_shingled_input: &mut [f32],
    last_shingled_point: &mut [f32],
    previous_timestamps: &mut [u64],
    initial_values: &mut [f32],
    initial_timestamps: &mut [u64],
    input: &[f32],
    timestamp: u64,
    point: &[f32],
    out: &mut [u8],
) -> Answered
    requires { 65536 ≤ length out.old }
    ensures { call_printed result.head result.given
        (lent statistics.new last_shingled_input.new last_shingled_point.new previous_timestamps.new initial_values.new initial_timestamps.new) point.now (output result.length out.new)
        ≡ prints_call (learn_result head given
        (lent statistics.old last_shingled_input.old last_shingled_point.old previous_timestamps.old initial_values.old initial_timestamps.old) point.now input.now timestamp) out.old }
{
    let n = get_dimension(head).min(point.len());
    let mut deviations = [0.0f32; 17];
    let mut past = [0.0f32; 1];
    let mut expected = [0.0f32; 1];
    let answer = post_process(
        &every_right(),
        0,
        head,
        statistics,
        last_shingled_input,
        last_shingled_point,
        previous_timestamps,
        initial_values,
        initial_timestamps,
        input,
        timestamp,
        given.then_some(&point[..n]),
        None,
        0.0,
        0,
        &mut deviations,
        &mut past,
        &mut expected,
    );
    match answer {
        Ok(next) => accepted(out, next.head, given),
        Err(refusal) => refused(out, head, given, refusal),
    }
}

// `d`.
pub(crate) fn call_drain(
    head: Preprocessor,
    given: bool,
    statistics: &mut [f64],
    last_shingled_input: &mut [f32],
    last_shingled_point: &mut [f32],
    previous_timestamps: &mut [u64],
    initial_values: &[f32],
    initial_timestamps: &[u64],
    out: &mut [u8],
) -> Answered
    requires { 65536 ≤ length out.old }
    ensures { (y : List Float) → call_printed result.head result.given
        (lent statistics.new last_shingled_input.new last_shingled_point.new previous_timestamps.new initial_values.now initial_timestamps.now) y (output result.length out.new)
        ≡ prints_call (drain_result head given (lent statistics.old last_shingled_input.old last_shingled_point.old previous_timestamps.old initial_values.now initial_timestamps.now) y) out.old }
{
    let answer = drain(
        &every_right(),
        0,
        head,
        statistics,
        last_shingled_input,
        last_shingled_point,
        previous_timestamps,
        initial_values,
        initial_timestamps,
    );
    match answer {
        Ok(next) => accepted(out, next, given),
        Err(refusal) => refused(out, head, given, refusal),
    }
}

// `s`: the text.
pub(crate) fn call_save(head: Preprocessor, lists: LentLists, out: &mut [u8]) -> usize
    requires { 65536 ≤ length out.old }
    ensures { output result out.new ≡ save_prints head (lent_by lists.entry) out.old }
{
    match save(&every_right(), 0, head, lists, out) {
        Ok(length) => length,
        Err(refusal) => print_no(out, refusal),
    }
}
