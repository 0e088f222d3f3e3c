// Replays a line of the kind deviation on one statistic, which is carried from line to line.
use common::deviation::Deviation;
use refusal::Refusal;
use vectors_core::fields::{Differs, Fields};

fn create(fields: &mut Fields<'_>) -> Result<Deviation, Refusal> {
    let discount = fields.take_number();
    let weight = fields.take_number();
    let sum = fields.take_number();
    let sum_squared = fields.take_number();
    let count = fields.take_number();
    Deviation::create(discount, weight, sum, sum_squared, count)
}

// One reading put right.
fn correct(fields: &mut Fields<'_>, statistic: Deviation) -> Result<Deviation, Refusal> {
    let wrong = fields.take_number();
    let right = fields.take_number();
    statistic.corrected(wrong, right)
}

// What a line's call answers. A letter that the kind lacks is no call, and its line differs.
fn called(
    letter: u8,
    fields: &mut Fields<'_>,
    statistic: Deviation,
) -> Result<Result<Deviation, Refusal>, Differs> {
    match letter {
        b'n' => Ok(Deviation::new(fields.take_number())),
        b'u' => Ok(statistic.update(fields.take_number())),
        b'd' => Ok(Ok(statistic.set_discount(fields.take_number()))),
        b'c' => Ok(create(fields)),
        b'k' => Ok(statistic.set_count(fields.take_number())),
        b'o' => Ok(correct(fields, statistic)),
        b'r' => Ok(Ok(statistic.reset())),
        b'e' => Ok(Ok(Deviation::default())),
        _ => Err(Differs),
    }
}

fn expect(fields: &mut Fields<'_>, s: Deviation) -> Result<(), Differs> {
    fields.expect(s.discount())?;
    fields.expect(s.weight())?;
    fields.expect(s.sum())?;
    fields.expect(s.sum_squared())?;
    fields.expect(s.count())?;
    fields.expect(s.mean())?;
    fields.expect(s.deviation())?;
    fields.expect_flag(s.is_empty())
}

// A refused call leaves the statistic as it was.
pub(crate) fn replay_line(line: &[u8], statistic: &mut Deviation) -> Result<(), Differs> {
    let (letter, mut fields) = Fields::of(line);
    let answer = called(letter, &mut fields, *statistic)?;
    let row = match answer {
        Ok(after) => {
            *statistic = after;
            0
        }
        Err(refusal) => u64::from(refusal),
    };
    fields.expect(row)?;
    expect(&mut fields, *statistic)?;
    fields.finish()
}
