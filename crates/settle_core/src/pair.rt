// A `set` line and a `wgt` line: their form, rows 1 to 9, and d 1.
// Kept: (d) a text and a place in it are two parameters, and each contract asks that the place is in the text: a struct of both would ask it once, but contracts would speak of
// its fields (`drop p.at p.text.now`), and what is read of a line or a field would hold the text too.
ghost use Rattle.std.specs.Prelude.{◌≡◌, List, ℕ, ◌≤◌, IfOk, length, drop};
ghost use Rattle.bench_core.specs.Line.{kept_of};
ghost use Rattle.bench_core.specs.Bench.{zero_codes};
ghost use Rattle.trcf.specs.View.{settings_from};
ghost use Rattle.settle_core.specs.Input.{line_of, pair_by, pair_of};
ghost use Rattle.settle_core.specs.Steps.{NamedIn, pair_in};

use crate::scan::{Line, line_at};
use bench_core::line::{Line as Cells, Name, is_named, request};
use bench_core::step::{builder_from, code_count, kept};
use refusal::Refusal;
use settling::run::pair_row;
use trcf::head::PreprocessorBuilder;

// The settings of a pair: of d 1 and so of one weight.
#[derive(Clone, Copy)]
pub(crate) struct Pair {
    pub builder: PreprocessorBuilder,
    pub weight: f32,
}

// What is read of a pair: its settings, and where the next line begins.
#[derive(Clone, Copy)]
pub(crate) struct PairRead {
    pub next: usize,
    pub pair: Pair,
}

// Rows 1 to 9 and d 1 of the settings of both lines, with zero codes.
fn settings_of(builder: PreprocessorBuilder, w: Cells, next: usize) -> Result<PairRead, Refusal>
    ensures by_index { (t : List ℕ) → pair_in result t ≡ pair_by (settings_from builder (kept_of w) (zero_codes builder)) (drop next t) }
    ensures next_le_next { IfOk result (λ read. read.next ≤ next) }
{
    let zeros = [0u16; 16];
    let n = kept(w);
    let m = code_count(builder.input_dimensions);
    pair_row(builder, &w.singles[..n], &zeros[..m])?;
    Ok(PairRead {
        next,
        pair: Pair {
            builder,
            weight: w.singles[0],
        },
    })
}

// The next line, which has to be one of the bench's form and of this name.
fn line_named(text: &[u8], at: usize, name: Name) -> Result<Line, Refusal>
    requires { at ≤ length text.now }
    ensures text_value { NamedIn result text.now name (line_of (drop at text.now)) }
    ensures next_in_bounds { IfOk result (λ read. read.next ≤ length text.now) }
{
    match line_at(text, at) {
        Some(read) if is_named(request(read.line), name) => Ok(read),
        _ => Err(Refusal::Form),
    }
}

pub(crate) fn pair_at(text: &[u8], at: usize) -> Result<PairRead, Refusal>
    requires { at ≤ length text.now }
    ensures text_value { pair_in result text.now ≡ pair_of (drop at text.now) }
    ensures next_in_bounds { IfOk result (λ read. read.next ≤ length text.now) }
{
    let set = line_named(text, at, Name::Set)?;
    let weights = line_named(text, set.next, Name::Weights)?;
    settings_of(builder_from(set.line), weights.line, weights.next)
}
