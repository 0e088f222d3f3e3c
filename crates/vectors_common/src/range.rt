// Replays a line of the kinds range32 and range64; each stands for itself.
use ranges::rangevector::{RangeVector, Width};
use refusal::row_of;
use vectors_core::bounded::Bounded;
use vectors_core::field::LentNumber;
use vectors_core::fields::{Differs, Fields};

// How many numbers a list of a line may have.
pub(crate) const MOST: usize = 80;

// The three lists as a call takes them.
fn vector<T: LentNumber + Width>(lists: &mut Bounded<T, MOST>) -> RangeVector<'_, T> {
    RangeVector {
        values: &mut lists.values,
        upper: &mut lists.upper,
        lower: &mut lists.lower,
    }
}

fn create_line<T: LentNumber + Width>(
    mut fields: Fields<'_>,
    lists: &mut Bounded<T, MOST>,
) -> Result<(), Differs> {
    let mut x = Bounded::<T, MOST>::new();
    x.read(&mut fields);
    lists.lend(&mut fields);
    let answer = vector(lists).create(&x.values, &x.upper, &x.lower);
    lists.expect_written(&mut fields, row_of(answer))?;
    fields.finish()
}

fn new_line<T: LentNumber + Width>(
    mut fields: Fields<'_>,
    lists: &mut Bounded<T, MOST>,
) -> Result<(), Differs> {
    let dimensions = fields.take_number::<u64>() as usize;
    lists.lend(&mut fields);
    let answer = vector(lists).new(dimensions);
    lists.expect_written(&mut fields, row_of(answer))?;
    fields.finish()
}

fn from_line<T: LentNumber + Width>(
    mut fields: Fields<'_>,
    lists: &mut Bounded<T, MOST>,
) -> Result<(), Differs> {
    let x = fields.list::<T, MOST>();
    lists.lend(&mut fields);
    let answer = vector(lists).from(&x);
    lists.expect_written(&mut fields, row_of(answer))?;
    fields.finish()
}

fn shift_line<T: LentNumber + Width>(
    given: Fields<'_>,
    lists: &mut Bounded<T, MOST>,
) -> Result<(), Differs> {
    let mut fields = given;
    lists.read(&mut fields);
    let i = fields.take_number::<u64>() as usize;
    let answer = vector(lists).shift(i, fields.take_number());
    lists.expect_changed(given, &mut fields, row_of(answer))?;
    fields.finish()
}

fn scale_line<T: LentNumber + Width>(
    given: Fields<'_>,
    lists: &mut Bounded<T, MOST>,
) -> Result<(), Differs> {
    let mut fields = given;
    lists.read(&mut fields);
    let i = fields.take_number::<u64>() as usize;
    let answer = vector(lists).scale(i, fields.take_number());
    lists.expect_changed(given, &mut fields, row_of(answer))?;
    fields.finish()
}

fn cascade_line<T: LentNumber + Width>(
    given: Fields<'_>,
    lists: &mut Bounded<T, MOST>,
) -> Result<(), Differs> {
    let mut fields = given;
    lists.read(&mut fields);
    let base = fields.list::<T, MOST>();
    let answer = vector(lists).cascaded_add(&base);
    lists.expect_changed(given, &mut fields, row_of(answer))?;
    fields.finish()
}

// `lists` are what a call writes to, in memory of the caller, who knows how large a `T` is.
pub(crate) fn replay_line<T: LentNumber + Width>(
    line: &[u8],
    lists: &mut Bounded<T, MOST>,
) -> Result<(), Differs> {
    let (letter, fields) = Fields::of(line);
    match letter {
        b'z' => new_line(fields, lists),
        b'f' => from_line(fields, lists),
        b'c' => create_line(fields, lists),
        b's' => shift_line(fields, lists),
        b'm' => scale_line(fields, lists),
        b'a' => cascade_line(fields, lists),
        _ => Err(Differs),
    }
}
