// The line before a text, which says how long the text is and what comes of it.
ghost use Rattle.std.specs.Prelude.{◌≡◌, ◌+◌, ◌<◌, ◌≤◌, length, IfOk};
ghost use Rattle.arrayvec.specs.ArrayVec.{array_vec_len};

use arrayvec::ArrayVec;
use refusal::Refusal;
use snapshot_restore::restore::RestoreError;
use vectors_core::fields::{Differs, Fields};

// A text with the fields of its line that are still to be read, and what follows in the file.
#[derive(Clone, Copy)]
pub(crate) struct Placed<'a> {
    letter: u8,
    fields: Fields<'a>,
    pub text: &'a [u8],
    pub behind: &'a [u8],
}

// The text at the front of a file. One that the file does not hold to the end is none. Behind its bytes stands an LF; where another byte does, the next text is behind that.
pub(crate) fn first_text<'a>(file: &'a [u8]) -> Result<Placed<'a>, Differs>
    ensures { IfOk result (λ placed. length placed.text.now + length placed.behind.now < length file.now) }
{
    let end = file.iter().position(|b| *b == b'\n').ok_or(Differs)?;
    let (line, rest) = file.split_at(end + 1);
    let (letter, mut fields) = Fields::of(line);
    let n = fields.length(rest.len());
    let (text, rest) = rest.split_at(n);
    let (last, behind) = rest.split_first().ok_or(Differs)?;
    fields.also(*last == b'\n');
    Ok(Placed {
        letter,
        fields,
        text,
        behind,
    })
}

// The row by which a text is refused, and its first bad line.
// Kept: (d) the row is the number that the file has: a `Refusal` is made of no number anywhere, and 28 arms that do so, for one comparison, would be no plainer.
#[derive(Clone, Copy, PartialEq, Eq)]
pub(crate) struct Refused {
    row: u64,
    line: u64,
}

impl From<RestoreError> for Refused {
    fn from(error: RestoreError) -> Refused {
        Refused {
            row: u64::from(error.refusal()),
            line: error.line() as u64,
        }
    }
}

// The codes that are expected, how many times are lent, and how the text is refused where it is not taken up.
#[derive(Drop)]
pub(crate) struct Announced {
    pub codes: ArrayVec<u16, LONGEST_CODES>,
    pub times: usize,
    pub refused: Option<Refused>,
}

// How many codes may be expected.
const LONGEST_CODES: usize = 40;

// How many weights the second line has, at most 16.
fn channels(text: &[u8]) -> usize
    ensures { result ≤ 16 }
{
    let line = text.split(|b| *b == b'\n').nth(1).unwrap_or(&[]);
    line.iter().filter(|b| **b == b'\t').count().min(16)
}

// `t`: a text of before there were codes, with its first bad line. Zeros are expected, as many as it has weights.
fn bare_text(fields: &mut Fields<'_>, text: &[u8], room: usize) -> Announced
    ensures codes { array_vec_len result.codes ≤ 16 }
    ensures times { result.times ≡ room }
{
    let line = fields.take_number();
    let mut codes = ArrayVec::from([0; LONGEST_CODES]);
    codes.truncate(channels(text));
    Announced {
        codes,
        times: room,
        refused: (line != 0).then_some(Refused {
            row: u64::from(Refusal::Form),
            line,
        }),
    }
}

// The row and the first bad line, or zeros.
fn read_refused(fields: &mut Fields<'_>) -> Option<Refused> {
    let row = fields.take_number();
    let line = fields.take_number();
    (row != 0 || line != 0).then_some(Refused { row, line })
}

// `r`: the codes expected, the length of the list lent for the times, and how it is refused.
fn coded_text(fields: &mut Fields<'_>, room: usize) -> Announced
    ensures codes { array_vec_len result.codes ≤ 40 }
    ensures times { result.times ≤ room }
{
    Announced {
        codes: fields.list(),
        times: fields.length(room),
        refused: read_refused(fields),
    }
}

pub(crate) fn read_announced(placed: Placed<'_>, room: usize) -> Result<Announced, Differs>
    ensures codes { IfOk result (λ told. array_vec_len told.codes ≤ 40) }
    ensures times { IfOk result (λ told. told.times ≤ room) }
{
    let mut fields = placed.fields;
    let told = match placed.letter {
        b't' => bare_text(&mut fields, placed.text, room),
        b'r' => coded_text(&mut fields, room),
        _ => return Err(Differs),
    };
    fields.finish()?;
    Ok(told)
}
