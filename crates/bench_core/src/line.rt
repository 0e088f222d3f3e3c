// A line of the bench, read cell by cell: what is kept of it is its name, its first fields and how many there are.
ghost use Rattle.std.specs.Prelude.{◌≡◌};
ghost use Rattle.snapshot.specs.Read.{as_whole};
ghost use Rattle.snapshot.specs.Scan.{number_of};
ghost use Rattle.bench_core.specs.Line.{is_named, is_reading, name_of, set_place, call_place, place_of, letter_of, method_field, other_line, after_field, with_whole, with_double, with_single, line_with_field};
ghost use Rattle.bench_core.specs.Line.{cell_of, request_of, blank_line};

use snapshot::cells::{double, single, whole};
use snapshot::field::Field;
use trcf::types::mode_of_letter;
use trcf_rows::rows::is_imputing;

// What a line is, by its name; Unread before the name is read, Other for one of no form.
#[derive(Clone, Copy, PartialEq, Eq)]
pub enum Name {
    Unread,
    Set,
    Weights,
    Point,
    Learn,
    Drain,
    Save,
    Other,
}

// Whether two names are the same.
pub fn is_named(a: Name, b: Name) -> bool
    ensures { result ≡ is_named a b }
{
    a == b
}

// Whether a line brings a reading.
pub(crate) fn is_reading(name: Name) -> bool
    ensures { result ≡ is_reading name }
{
    matches!(name, Name::Point | Name::Learn)
}

// What the field at a place of a line has to be.
#[derive(Clone, Copy)]
pub enum Place {
    AsLetter,
    AsMethod,
    AsWhole,
    AsDouble,
    AsSingle,
    Nowhere,
}

// Kept: (a) no heap and fixed memory, so the numbers of a line stand in arrays, with the count of those that are kept beside.
#[derive(Clone, Copy)]
pub struct Line {
    pub name: Name,
    // fields after the name, counted to 9
    pub fields: usize,
    // whole numbers, each at its place; the letter of a mode at place 0
    pub wholes: [u64; 6],
    pub double: f64,
    // f32 fields, counted to 17
    pub count: usize,
    pub singles: [f32; 17],
}

pub fn blank() -> Line
    ensures { result ≡ blank_line }
{
    Line {
        name: Name::Unread,
        fields: 0,
        wholes: [0; 6],
        double: 0.0,
        count: 0,
        singles: [0.0; 17],
    }
}

// The name that a line's first cell gives it.
pub fn name_of(c: &[u8]) -> Name
    ensures { result ≡ name_of c.now }
{
    match c {
        b"set" => Name::Set,
        b"wgt" => Name::Weights,
        b"p" => Name::Point,
        b"l" => Name::Learn,
        b"d" => Name::Drain,
        b"s" => Name::Save,
        _ => Name::Other,
    }
}

fn set_place(i: usize) -> Place
    ensures { result ≡ set_place i }
{
    match i {
        0 => Place::AsLetter,
        1 => Place::AsMethod,
        2..=5 => Place::AsWhole,
        6 => Place::AsDouble,
        7 => Place::AsSingle,
        _ => Place::Nowhere,
    }
}

// A time, and any number of f32 after it.
fn call_place(i: usize) -> Place
    ensures { result ≡ call_place i }
{
    if i == 0 {
        Place::AsWhole
    } else {
        Place::AsSingle
    }
}

fn place_of(name: Name, i: usize) -> Place
    ensures { result ≡ place_of name i }
{
    match name {
        Name::Set => set_place(i),
        Name::Weights => Place::AsSingle,
        Name::Point | Name::Learn => call_place(i),
        _ => Place::Nowhere,
    }
}

// Kept: (d) a letter and a method are numbers here: they stand among the whole numbers of a line, in the code as in the definitions of the bench, and `builder_from` makes kinds of them.
// The letter of a mode that a text can have.
fn letter(c: &[u8]) -> Option<u64>
    ensures { result ≡ letter_of c.now }
{
    match c {
        [byte] if !is_imputing(mode_of_letter(u64::from(*byte))) => Some(u64::from(*byte)),
        _ => None,
    }
}

// The number of a method, at most 5.
fn method(c: &[u8]) -> Option<u64>
    ensures { result ≡ method_field (number_of (as_whole c.now)) }
{
    whole(c).filter(|n| *n <= 5)
}

// A line of another form stays one.
fn other(l: Line) -> Line
    ensures { result ≡ other_line l }
{
    Line {
        name: Name::Other,
        ..l
    }
}

// One field more, as far as they are counted.
fn after(i: usize) -> usize
    ensures { result ≡ after_field i }
{
    if i < 9 { i + 1 } else { i }
}

fn with_whole(l: Line, n: Option<u64>) -> Line
    ensures { result ≡ with_whole l n }
{
    match n {
        Some(v) if l.fields < 6 => {
            let mut next = l;
            next.wholes[l.fields] = v;
            next.fields += 1;
            next
        }
        _ => other(l),
    }
}

fn with_double(l: Line, f: Field) -> Line
    ensures { result ≡ with_double l f }
{
    match f {
        Field::Double(double) => Line {
            fields: after(l.fields),
            double,
            ..l
        },
        _ => other(l),
    }
}

// The first 17 are kept: no count of values above 16 is a reading or a list of weights.
fn with_single(l: Line, f: Field) -> Line
    ensures { result ≡ with_single l f }
{
    let Field::Single(x) = f else {
        return other(l);
    };
    let mut next = l;
    next.fields = after(l.fields);
    if l.count < 17 {
        next.singles[l.count] = x;
        next.count += 1;
    }
    next
}

#[tactic(auto, unfolding(crate::specs::Line::line_with_field))]
fn with_field(l: Line, c: &[u8]) -> Line
    ensures { result ≡ line_with_field l c.now }
{
    match place_of(l.name, l.fields) {
        Place::AsLetter => with_whole(l, letter(c)),
        Place::AsMethod => with_whole(l, method(c)),
        Place::AsWhole => with_whole(l, whole(c)),
        Place::AsDouble => with_double(l, double(c)),
        Place::AsSingle => with_single(l, single(c)),
        Place::Nowhere => other(l),
    }
}

// The line with one cell more: its name, and then its fields.
#[tactic(auto, unfolding(crate::specs::Line::cell_of))]
pub fn cell(l: Line, c: &[u8]) -> Line
    ensures { result ≡ cell_of l c.now }
{
    if is_named(l.name, Name::Unread) {
        return Line {
            name: name_of(c),
            ..l
        };
    }
    with_field(l, c)
}

// What a line that is ended asks for: Other where fields are missing.
#[tactic(auto, unfolding(crate::specs::Line::request_of))]
pub fn request(l: Line) -> Name
    ensures { result ≡ request_of l }
{
    match l.name {
        Name::Set if l.fields != 8 => Name::Other,
        Name::Point | Name::Learn if l.fields == 0 => Name::Other,
        Name::Unread => Name::Other,
        name => name,
    }
}
