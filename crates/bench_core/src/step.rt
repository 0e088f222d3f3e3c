// The bench, cell by cell: a step reads one cell of the input, and prints what the line asks for where the cell ends it.
// Kept: (d) `65536 ≤ length out.old` is asked in each contract: with `&mut [u8; 65536]` it would go, but `step` and `finish`, which take an output of any length and refuse a short one,
// promise the whole of it, so what each function here promises of the first 65,536 bytes would have to be carried over to the whole.
ghost use Rattle.std.specs.Prelude.{◌≡◌, List, Float, ◌≤◌, length};
ghost use Rattle.refusal.specs.Refusal.{number_of, row_of};
ghost use Rattle.trcf.specs.Settings.{settings_row};
ghost use Rattle.trcf.specs.View.{Lent, lent, head_outcome, no_head, or_else, settings_from};
ghost use Rattle.bench_core.specs.Line.{request_of, kept_count};
ghost use Rattle.bench_core.specs.Bench.{code_count, built_of, output, prints, no_text, ready_for, going_on, end_of, builder_from, no_builder, fresh_bench, line_result, set_gives, limit_row};
ghost use Rattle.bench_core.specs.Bench.{build_gives, weights_gives, plain_gives, reading_gives, call_gives, line_gives, cell_length, cell_kept, stepped_by, with_line, bench_step, begun, end_result};
ghost use Rattle.bench_core.specs.Bench.{finish_by, finished_from, finish_of};

use crate::call::{Answered, call_drain, call_learn, call_point, call_save, print_no};
use crate::line::{Line, Name, blank, cell, is_named, is_reading, request};
use refusal::Refusal;
use trcf::head::{LentLists, Preprocessor, PreprocessorBuilder, no_head};
use trcf::types::{ForestMode, INPUT_LIMIT, TransformMethod, method_of_number, mode_of_letter};
use trcf_calls::build::build;
use trcf_rows::rows::settings_row;

// The bytes that the output of a step has to have.
pub const ROOM: usize = 65536;

// The bytes that are looked at of a cell: a longer one is no name and no field, and neither is its start (`long_cell` in bench_blocks).
pub const LONGEST: usize = 24;

// What the next line has to be: `set`, `wgt`, a call; or the run is over.
#[derive(Clone, Copy, PartialEq, Eq)]
pub enum Phase {
    WantsSet,
    WantsWeights,
    Running,
    Ended,
}

#[derive(Clone, Copy)]
pub struct Bench {
    pub phase: Phase,
    // the line that is being read
    pub line: Line,
    // the settings, from `set` on
    pub builder: PreprocessorBuilder,
    // the preprocessor, from `wgt` on
    pub head: Preprocessor,
    // whether a `p` gave a point
    pub given: bool,
}

// What a step leaves: how many bytes are read and written, and the bench.
#[derive(Clone, Copy)]
pub struct StepResult {
    pub next: usize,
    pub length: usize,
    pub bench: Bench,
}

// A bench that no line has reached.
pub fn start() -> Bench
    ensures { result ≡ fresh_bench }
{
    Bench {
        phase: Phase::WantsSet,
        line: blank(),
        builder: no_builder(),
        head: no_head(),
        given: false,
    }
}

fn no_builder() -> PreprocessorBuilder
    ensures { result ≡ no_builder }
{
    PreprocessorBuilder {
        forest_mode: ForestMode::STANDARD,
        transform_method: TransformMethod::NONE,
        input_dimensions: 0,
        shingle_size: 0,
        start_normalization: 0,
        stop_normalization: 0,
        transform_decay: 0.0,
        weight_time: 0.0,
    }
}

// The settings of a `set` line.
pub fn builder_from(l: Line) -> PreprocessorBuilder
    ensures { result ≡ builder_from l }
{
    PreprocessorBuilder {
        forest_mode: mode_of_letter(l.wholes[0]),
        transform_method: method_of_number(l.wholes[1]),
        input_dimensions: l.wholes[2] as usize,
        shingle_size: l.wholes[3] as usize,
        start_normalization: l.wholes[4] as usize,
        stop_normalization: l.wholes[5] as usize,
        transform_decay: l.double,
        weight_time: l.singles[0],
    }
}

// The bench in a phase, ready for the next line.
fn ready(b: Bench, phase: Phase) -> Bench
    ensures { result ≡ ready_for phase b.builder b.head b.given }
{
    Bench {
        phase,
        line: blank(),
        ..b
    }
}

// What a line, or the end of the input, leaves and how many bytes it printed.
#[derive(Clone, Copy)]
pub struct Printed {
    pub bench: Bench,
    pub length: usize,
}

fn ended(b: Bench, refusal: Refusal, out: &mut [u8]) -> Printed
    requires { 65536 ≤ length out.old }
    ensures { end_result result.bench (output result.length out.new) ≡ end_result (end_of b) (prints (no_text (number_of refusal)) out.old) }
{
    Printed {
        bench: ready(b, Phase::Ended),
        length: print_no(out, refusal),
    }
}

// The first line.
fn read_set(b: Bench, l: Line, out: &mut [u8]) -> Printed
    requires { 65536 ≤ length out.old }
    ensures { (lists : Lent) (y : List Float) → line_result result.bench lists y (output result.length out.new) ≡ set_gives (request_of l) b l lists y out.old }
{
    if !is_named(request(l), Name::Set) {
        return ended(b, Refusal::Form, out);
    }
    Printed {
        bench: Bench {
            builder: builder_from(l),
            ..ready(b, Phase::WantsWeights)
        },
        length: 0,
    }
}

// The row that refuses what is past the limits of the bench.
fn limit_row(b: PreprocessorBuilder) -> Result<(), Refusal>
    ensures { row_of result ≡ limit_row b }
{
    if 4 < b.input_dimensions || 500 < b.start_normalization {
        return Err(Refusal::TooShort);
    }
    Ok(())
}

// How many codes a bench has.
// Kept: (d) `trcf_rows::rows::used` is computed alike, but promises what it leaves of a list of 16, and no number; here the number is promised, and as many zeros are the codes.
pub fn code_count(d: usize) -> usize
    ensures value { result ≡ code_count d }
    ensures upper_bound { result ≤ 16 }
{
    d.min(INPUT_LIMIT)
}

// Rows 1 to 9, and then the limits.
fn head_row(builder: PreprocessorBuilder, weights: &[f32], codes: &[u16]) -> Result<(), Refusal>
    ensures { row_of result ≡ or_else (settings_row (settings_from builder weights.now codes.now)) (limit_row builder) }
{
    settings_row(builder, weights, codes)?;
    limit_row(builder)
}

// `build` with zero codes, unless a row refuses the settings or they are past the limits.
fn build_bare(
    builder: PreprocessorBuilder,
    weights: &[f32],
    statistics: &mut [f64],
    last_shingled_input: &mut [f32],
    last_shingled_point: &mut [f32],
    previous_timestamps: &mut [u64],
    initial_values: &[f32],
    initial_timestamps: &[u64],
) -> Result<Preprocessor, Refusal>
    ensures { head_outcome result no_head (lent statistics.new last_shingled_input.new last_shingled_point.new previous_timestamps.new initial_values.now initial_timestamps.now)
        ≡ built_of builder weights.now (lent statistics.old last_shingled_input.old last_shingled_point.old previous_timestamps.old initial_values.now initial_timestamps.now) }
{
    let zeros = [0u16; 16];
    let n = code_count(builder.input_dimensions);
    head_row(builder, weights, &zeros[..n])?;
    build(
        builder,
        weights,
        &zeros[..n],
        statistics,
        last_shingled_input,
        last_shingled_point,
        previous_timestamps,
        initial_values,
        initial_timestamps,
    )
}

// The second line, of the form.
fn read_weights(
    b: Bench,
    l: Line,
    statistics: &mut [f64],
    last_shingled_input: &mut [f32],
    last_shingled_point: &mut [f32],
    previous_timestamps: &mut [u64],
    initial_values: &[f32],
    initial_timestamps: &[u64],
    out: &mut [u8],
) -> Printed
    requires { 65536 ≤ length out.old }
    ensures { (y : List Float) → line_result result.bench
        (lent statistics.new last_shingled_input.new last_shingled_point.new previous_timestamps.new initial_values.now initial_timestamps.now) y (output result.length out.new)
        ≡ build_gives b l (lent statistics.old last_shingled_input.old last_shingled_point.old previous_timestamps.old initial_values.now initial_timestamps.now) y out.old }
{
    let n = kept(l);
    let built = build_bare(
        b.builder,
        &l.singles[..n],
        statistics,
        last_shingled_input,
        last_shingled_point,
        previous_timestamps,
        initial_values,
        initial_timestamps,
    );
    match built {
        Ok(head) => Printed {
            bench: Bench {
                head,
                ..ready(b, Phase::Running)
            },
            length: 0,
        },
        Err(refusal) => ended(b, refusal, out),
    }
}

// How many f32 fields are kept.
pub fn kept(l: Line) -> usize
    ensures value { result ≡ kept_count l.count }
    ensures upper_bound { result ≤ 17 }
{
    l.count.min(17)
}

fn answered(b: Bench, a: Answered) -> Printed
    ensures bench_value { result.bench ≡ ready_for Phase.Running b.builder a.head a.given }
    ensures length_value { result.length ≡ a.length }
{
    Printed {
        bench: Bench {
            head: a.head,
            given: a.given,
            ..ready(b, Phase::Running)
        },
        length: a.length,
    }
}

// A line that changes nothing.
fn unchanged(b: Bench, n: usize) -> Printed
    ensures bench_value { result.bench ≡ going_on b }
    ensures length_value { result.length ≡ n }
{
    Printed {
        bench: ready(b, Phase::Running),
        length: n,
    }
}

// A line with a reading: `p`, or else `l`.
fn read_reading(
    b: Bench,
    l: Line,
    asks: bool,
    statistics: &mut [f64],
    last_shingled_input: &mut [f32],
    last_shingled_point: &mut [f32],
    previous_timestamps: &mut [u64],
    initial_values: &mut [f32],
    initial_timestamps: &mut [u64],
    point: &mut [f32],
    out: &mut [u8],
) -> Printed
    requires { 65536 ≤ length out.old }
    ensures { line_result result.bench
        (lent statistics.new last_shingled_input.new last_shingled_point.new previous_timestamps.new initial_values.new initial_timestamps.new) point.new (output result.length out.new)
        ≡ reading_gives asks b l (lent statistics.old last_shingled_input.old last_shingled_point.old previous_timestamps.old initial_values.old initial_timestamps.old) point.old out.old }
{
    let n = kept(l);
    if asks {
        let a = call_point(
            b.head,
            b.given,
            statistics,
            last_shingled_input,
            last_shingled_point,
            previous_timestamps,
            initial_values,
            initial_timestamps,
            &l.singles[..n],
            l.wholes[0],
            point,
            out,
        );
        return answered(b, a);
    }
    let a = call_learn(
        b.head,
        b.given,
        statistics,
        last_shingled_input,
        last_shingled_point,
        previous_timestamps,
        initial_values,
        initial_timestamps,
        &l.singles[..n],
        l.wholes[0],
        point,
        out,
    );
    answered(b, a)
}

// A line without a reading: `d`, `s`, or one of another form.
fn read_plain(
    b: Bench,
    name: Name,
    statistics: &mut [f64],
    last_shingled_input: &mut [f32],
    last_shingled_point: &mut [f32],
    previous_timestamps: &mut [u64],
    initial_values: &[f32],
    initial_timestamps: &[u64],
    out: &mut [u8],
) -> Printed
    requires { 65536 ≤ length out.old }
    ensures { (y : List Float) → line_result result.bench
        (lent statistics.new last_shingled_input.new last_shingled_point.new previous_timestamps.new initial_values.now initial_timestamps.now) y (output result.length out.new)
        ≡ plain_gives name b (lent statistics.old last_shingled_input.old last_shingled_point.old previous_timestamps.old initial_values.now initial_timestamps.now) y out.old }
{
    match name {
        Name::Drain => {
            let a = call_drain(
                b.head,
                b.given,
                statistics,
                last_shingled_input,
                last_shingled_point,
                previous_timestamps,
                initial_values,
                initial_timestamps,
                out,
            );
            answered(b, a)
        }
        Name::Save => {
            let lists = LentLists {
                statistics,
                last_shingled_input,
                last_shingled_point,
                previous_timestamps,
                initial_values,
                initial_timestamps,
            };
            let n = call_save(b.head, lists, out);
            unchanged(b, n)
        }
        _ => unchanged(b, print_no(out, Refusal::Form)),
    }
}

// A call line.
fn read_call(
    b: Bench,
    l: Line,
    statistics: &mut [f64],
    last_shingled_input: &mut [f32],
    last_shingled_point: &mut [f32],
    previous_timestamps: &mut [u64],
    initial_values: &mut [f32],
    initial_timestamps: &mut [u64],
    point: &mut [f32],
    out: &mut [u8],
) -> Printed
    requires { 65536 ≤ length out.old }
    ensures { line_result result.bench
        (lent statistics.new last_shingled_input.new last_shingled_point.new previous_timestamps.new initial_values.new initial_timestamps.new) point.new (output result.length out.new)
        ≡ call_gives (request_of l) b l (lent statistics.old last_shingled_input.old last_shingled_point.old previous_timestamps.old initial_values.old initial_timestamps.old) point.old out.old }
{
    let name = request(l);
    if is_reading(name) {
        return read_reading(
            b,
            l,
            is_named(name, Name::Point),
            statistics,
            last_shingled_input,
            last_shingled_point,
            previous_timestamps,
            initial_values,
            initial_timestamps,
            point,
            out,
        );
    }
    read_plain(
        b,
        name,
        statistics,
        last_shingled_input,
        last_shingled_point,
        previous_timestamps,
        initial_values,
        initial_timestamps,
        out,
    )
}

// The second line.
fn read_second(
    b: Bench,
    l: Line,
    statistics: &mut [f64],
    last_shingled_input: &mut [f32],
    last_shingled_point: &mut [f32],
    previous_timestamps: &mut [u64],
    initial_values: &[f32],
    initial_timestamps: &[u64],
    out: &mut [u8],
) -> Printed
    requires { 65536 ≤ length out.old }
    ensures { (y : List Float) → line_result result.bench
        (lent statistics.new last_shingled_input.new last_shingled_point.new previous_timestamps.new initial_values.now initial_timestamps.now) y (output result.length out.new)
        ≡ weights_gives (request_of l) b l (lent statistics.old last_shingled_input.old last_shingled_point.old previous_timestamps.old initial_values.now initial_timestamps.now) y out.old }
{
    if !is_named(request(l), Name::Weights) {
        return ended(b, Refusal::Form, out);
    }
    read_weights(
        b,
        l,
        statistics,
        last_shingled_input,
        last_shingled_point,
        previous_timestamps,
        initial_values,
        initial_timestamps,
        out,
    )
}

// A line that is ended, by the phase.
fn read_line(
    b: Bench,
    l: Line,
    statistics: &mut [f64],
    last_shingled_input: &mut [f32],
    last_shingled_point: &mut [f32],
    previous_timestamps: &mut [u64],
    initial_values: &mut [f32],
    initial_timestamps: &mut [u64],
    point: &mut [f32],
    out: &mut [u8],
) -> Printed
    requires { 65536 ≤ length out.old }
    ensures { line_result result.bench
        (lent statistics.new last_shingled_input.new last_shingled_point.new previous_timestamps.new initial_values.new initial_timestamps.new) point.new (output result.length out.new)
        ≡ line_gives b l (lent statistics.old last_shingled_input.old last_shingled_point.old previous_timestamps.old initial_values.old initial_timestamps.old) point.old out.old }
{
    match b.phase {
        Phase::WantsSet => read_set(b, l, out),
        Phase::WantsWeights => read_second(
            b,
            l,
            statistics,
            last_shingled_input,
            last_shingled_point,
            previous_timestamps,
            initial_values,
            initial_timestamps,
            out,
        ),
        Phase::Running => read_call(
            b,
            l,
            statistics,
            last_shingled_input,
            last_shingled_point,
            previous_timestamps,
            initial_values,
            initial_timestamps,
            point,
            out,
        ),
        Phase::Ended => Printed {
            bench: b,
            length: 0,
        },
    }
}

// Where the first cell ends: at a tab or an LF, or with the text.
#[tactic(auto, using(crate::proofs::CellLaws::cell_next, crate::proofs::CellLaws::none_left))]
pub fn cell_end(text: &[u8]) -> usize
    ensures value { result ≡ cell_length text.now }
    ensures upper_bound { result ≤ length text.now }
    ensures text_len_bound { length text.now ≤ 18446744073709551615 }
{
    for (i, byte) in text.iter().enumerate() {
        if matches!(*byte, b'\t' | b'\n') {
            return i;
        }
    }
    text.len()
}

// The part of a cell that is looked at.
fn cell_of(n: usize) -> usize
    ensures value { result ≡ cell_kept n }
    ensures upper_bound { result ≤ n }
{
    n.min(LONGEST)
}

fn with_line(b: Bench, l: Line) -> Bench
    ensures { result ≡ with_line b l }
{
    Bench { line: l, ..b }
}

// Reads the first cell of the text, with the tab or LF that ends it, and at an LF does what the line asks for. Nothing is read of a text
// in which no cell ends. Row 20, and nothing done, where out is shorter than ROOM.
pub fn step(
    b: Bench,
    statistics: &mut [f64],
    last_shingled_input: &mut [f32],
    last_shingled_point: &mut [f32],
    previous_timestamps: &mut [u64],
    initial_values: &mut [f32],
    initial_timestamps: &mut [u64],
    point: &mut [f32],
    text: &[u8],
    out: &mut [u8],
) -> Result<StepResult, Refusal>
    ensures { stepped_by result b (lent statistics.new last_shingled_input.new last_shingled_point.new previous_timestamps.new initial_values.new initial_timestamps.new) point.new out.new
        ≡ bench_step b (lent statistics.old last_shingled_input.old last_shingled_point.old previous_timestamps.old initial_values.old initial_timestamps.old) point.old text.now out.old }
{
    if out.len() < ROOM {
        return Err(Refusal::TooShort);
    }
    let n = cell_end(text);
    if n == text.len() {
        return Ok(StepResult {
            next: 0,
            length: 0,
            bench: b,
        });
    }
    let k = cell_of(n);
    let l = cell(b.line, &text[..k]);
    if text[n] == b'\t' {
        return Ok(StepResult {
            next: n + 1,
            length: 0,
            bench: with_line(b, l),
        });
    }
    let p = read_line(
        b,
        l,
        statistics,
        last_shingled_input,
        last_shingled_point,
        previous_timestamps,
        initial_values,
        initial_timestamps,
        point,
        out,
    );
    Ok(StepResult {
        next: n + 1,
        length: p.length,
        bench: p.bench,
    })
}

// Whether bytes stand after the last LF.
fn is_begun(name: Name, rest: &[u8]) -> bool
    ensures { result ≡ begun name rest.now }
{
    !rest.is_empty() || !is_named(name, Name::Unread)
}

// The end of the input, after the bytes of rest, in which no cell ends: a line without its LF, or a missing `set` or `wgt`, is of another form.
pub fn finish(b: Bench, rest: &[u8], out: &mut [u8]) -> Result<Printed, Refusal>
    ensures { finished_from result b out.new ≡ finish_of b rest.now out.old }
{
    if out.len() < ROOM {
        return Err(Refusal::TooShort);
    }
    Ok(finished_by(b, rest, out))
}

fn finished_by(b: Bench, rest: &[u8], out: &mut [u8]) -> Printed
    requires { 65536 ≤ length out.old }
    ensures { end_result result.bench (output result.length out.new) ≡ finish_by b.phase b rest.now out.old }
{
    match b.phase {
        Phase::WantsSet | Phase::WantsWeights => ended(b, Refusal::Form, out),
        Phase::Running if is_begun(b.line.name, rest) => ended(b, Refusal::Form, out),
        Phase::Running | Phase::Ended => ended_well(b),
    }
}

fn ended_well(b: Bench) -> Printed
    ensures bench_value { result.bench ≡ end_of b }
    ensures length_value { result.length ≡ 0 }
{
    Printed {
        bench: ready(b, Phase::Ended),
        length: 0,
    }
}
