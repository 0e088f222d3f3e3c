// One line of the input, cell by cell, as the bench reads it.
// Kept: (d) a text and a place in it are two parameters, and each contract asks that the place is in the text: a struct of both would ask it once, but contracts would speak of
// its fields (`drop p.at p.text.now`), and what is read of a line or a field would hold the text too.
ghost use Rattle.std.specs.Prelude.{◌≡◌, ◌≤◌, false, IfSome, MatchOption, length, drop};
ghost use Rattle.settle_core.specs.Input.{line_of, opens};
ghost use Rattle.settle_core.specs.Steps.{scanned_in};

use bench_core::line::{Line as Cells, Name, blank, cell, is_named, name_of};
use bench_core::step::cell_end;

// A line that an LF ends: what was read of it, and where the next one begins.
#[derive(Clone, Copy)]
pub(crate) struct Line {
    pub line: Cells,
    pub next: usize,
}

pub(crate) fn line_at(text: &[u8], from: usize) -> Option<Line>
    requires { from ≤ length text.now }
    ensures text_value { MatchOption result ((line_of (drop from text.now)).ended ≡ false) (λ read. scanned_in read text.now ≡ line_of (drop from text.now)) }
    ensures next_in_bounds { IfSome result (λ read. read.next ≤ length text.now) }
{
    let mut line = blank();
    let mut at = from;
    while at < text.len() {
        let end = at + cell_end(&text[at..]);
        if end == text.len() {
            return None;
        }
        line = cell(line, &text[at..end]);
        at = end + 1;
        if text[end] != b'\t' {
            return Some(Line { line, next: at });
        }
    }
    None
}

// Whether the first field of the next line is `set`.
pub(crate) fn opens_at(text: &[u8], at: usize) -> bool
    requires { at ≤ length text.now }
    ensures { result ≡ opens (drop at text.now) }
{
    let n = cell_end(&text[at..]);
    is_named(name_of(&text[at..at + n]), Name::Set)
}
