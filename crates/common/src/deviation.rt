// A discounted statistic of a stream of numbers (the source's common/deviation.rs), by value.
ghost use Rattle.std.specs.Prelude.{◌≡◌, ◌<◌, ◌≤◌, ◌+ℤ◌, ◌-ℤ◌};
ghost use Rattle.common.specs.Deviation.{count_limit, outside_unit, deviation_new, deviation_create, deviation_reset};
ghost use Rattle.common.specs.Deviation.{factor_of, next_factor, update_by, deviation_update, is_empty, mean_of, deviation_of, deviation_set_discount, deviation_set_count};
ghost use Rattle.factors.specs.Factors.{table_length, growing_at};
ghost use Rattle.refusal.specs.Refusal.{first_of, row_of, numbered};
ghost use Rattle.common.specs.WholeScores.{whole_float};
ghost use Rattle.common.specs.Corrected.{whole_within, integer_of, correction_rows, corrected_of};
ghost use Rattle.common.specs.Steps.Whole.{float_size, Summand};

use refusal::Refusal;

// The largest count of a statistic: count + 2 is then 2^53, the last up to which every whole number is an f64.
pub const COUNT_LIMIT: u64 = 9_007_199_254_740_990;

// A reading that is put right is a whole number of at most this size,
pub const READING_LIMIT: u64 = 65_536;

// and one of a list of at most so many.
pub const LENGTH_LIMIT: u64 = 1_048_576;

/// The statistic; its default is the empty one that keeps all.
#[derive(Clone, Copy, Debug, Default, PartialEq)]
pub struct Deviation {
    pub discount: f64,
    pub weight: f64,
    pub sum_squared: f64,
    pub sum: f64,
    pub count: u64,
}

// Whether a discount is refused; a not-a-number is.
pub fn outside_unit(discount: f64) -> bool
    ensures { result ≡ outside_unit discount }
{
    !(discount >= 0.0 && discount < 1.0)
}

// 1 - 1/(count + 2) of a count that the table reaches.
fn listed(count: u64) -> f64
    requires { count < table_length }
    ensures { result ≡ growing_at count }
{
    f64::from_bits(factors::table::listed(count))
}

// 1 - 1/(count + 2): read from the table while that reaches, and by the formula from there on.
fn growing(count: u64) -> f64
    requires { count ≤ count_limit }
    ensures { result ≡ growing_at count }
{
    if count < factors::table::LENGTH {
        return listed(count);
    }
    1.0 - 1.0 / (count + 2) as f64
}

// What an update multiplies by.
fn factor(discount: f64, count: u64) -> f64
    requires { count ≤ count_limit }
    ensures { result ≡ factor_of discount count }
{
    if discount == 0.0 {
        return 1.0;
    }
    let a = 1.0 - discount;
    let b = growing(count);
    if a < b { a } else { b }
}

// The factor of the next update, one for all statistics of this discount and this count; 0 where the count is spent, so that there is none.
// Kept: (d) no Option, since a caller only hands it on to update_by, which refuses at a count that is spent and does not look at it.
pub fn next_factor(discount: f64, count: u64) -> f64
    ensures { result ≡ next_factor discount count }
{
    if count < COUNT_LIMIT {
        return factor(discount, count);
    }
    0.0
}

// The size of x; a zero keeps its sign.
fn size_of(x: f64) -> f64
    ensures { result ≡ float_size x }
{
    if x < 0.0 { -x } else { x }
}

// Whether x is a whole number of size at most `limit`: its whole part, turned back into a float, is the size again. From 2^64 on there is no whole part to take.
fn whole_within(limit: u64, x: f64) -> bool
    requires { limit ≤ 9007199254740992 }
    ensures { result ≡ whole_within limit x }
{
    let a = size_of(x);
    if a < 18446744073709551616.0 {
        let n = std::num::truncating_f64_to_u64(a);
        if limit < n {
            return false;
        }
        return std::num::nearest_u64_to_f64(n) == a;
    }
    false
}

// Row 26, unless a statistic and two readings are such that the one reading can be put right by the other.
fn check_correction(s: Deviation, wrong: f64, right: f64) -> Result<(), Refusal>
    ensures { row_of result ≡ first_of (correction_rows s wrong right) }
{
    let count = s.count;
    if !(s.discount == 0.0) {
        return Err(Refusal::NotCorrectable);
    }
    if !whole_within(READING_LIMIT, wrong) {
        return Err(Refusal::NotCorrectable);
    }
    if !whole_within(READING_LIMIT, right) {
        return Err(Refusal::NotCorrectable);
    }
    if count < 1 {
        return Err(Refusal::NotCorrectable);
    }
    if LENGTH_LIMIT < count {
        return Err(Refusal::NotCorrectable);
    }
    if !(s.weight == count as f64) {
        return Err(Refusal::NotCorrectable);
    }
    if !whole_within(READING_LIMIT * count, s.sum) {
        return Err(Refusal::NotCorrectable);
    }
    if !whole_within(READING_LIMIT * READING_LIMIT * count, s.sum_squared) {
        return Err(Refusal::NotCorrectable);
    }
    if !(0.0 <= s.sum_squared) {
        return Err(Refusal::NotCorrectable);
    }
    Ok(())
}

// A whole number with one summand put in and one taken out. Each step is exact; and as it begins at +0, a zero is +0.
fn moved(x: f64, put: f64, taken: f64) -> f64
    requires { Summand x × Summand put × Summand taken }
    ensures { result ≡ whole_float (integer_of x +ℤ (integer_of put -ℤ integer_of taken)) }
{
    0.0 + x + put - taken
}

impl Deviation {
    pub fn new(discount: f64) -> Result<Deviation, Refusal>
        ensures { numbered result ≡ deviation_new discount }
    {
        if outside_unit(discount) {
            return Err(Refusal::Decay);
        }
        Ok(Deviation {
            discount,
            ..Deviation::default()
        })
    }

    pub fn create(
        discount: f64,
        weight: f64,
        sum: f64,
        sum_squared: f64,
        count: u64,
    ) -> Result<Deviation, Refusal>
        ensures { numbered result ≡ deviation_create discount weight sum sum_squared count }
    {
        if outside_unit(discount) {
            return Err(Refusal::Decay);
        }
        if COUNT_LIMIT < count {
            return Err(Refusal::CounterLimit);
        }
        Ok(Deviation {
            discount,
            weight,
            sum_squared,
            sum,
            count,
        })
    }

    pub fn reset(self) -> Deviation
        ensures { result ≡ deviation_reset self }
    {
        Deviation {
            discount: self.discount,
            ..Deviation::default()
        }
    }

    pub fn mean(self) -> f64
        ensures { result ≡ mean_of self }
    {
        if self.is_empty() {
            0.0
        } else {
            self.sum / self.weight
        }
    }

    pub fn update(self, score: f64) -> Result<Deviation, Refusal>
        ensures { numbered result ≡ deviation_update self score }
    {
        self.update_by(next_factor(self.discount, self.count), score)
    }

    // The same by a factor that is given, for a caller whose statistics share it.
    pub fn update_by(self, f: f64, score: f64) -> Result<Deviation, Refusal>
        ensures { numbered result ≡ update_by f self score }
    {
        let count = self.count;
        if COUNT_LIMIT <= count {
            return Err(Refusal::CounterLimit);
        }
        Ok(Deviation {
            weight: self.weight * f + 1.0,
            sum_squared: self.sum_squared * f + score * score,
            sum: self.sum * f + score,
            count: count + 1,
            ..self
        })
    }

    // Of a list's statistic, the statistic of the list with `right` in a place that held `wrong`: one odd reading put right, without the list.
    pub fn corrected(self, wrong: f32, right: f32) -> Result<Deviation, Refusal>
        ensures { numbered result ≡ corrected_of self wrong right }
    {
        let w = numeric::to_f64(wrong);
        let r = numeric::to_f64(right);
        check_correction(self, w, r)?;
        Ok(Deviation {
            sum_squared: moved(self.sum_squared, r * r, w * w),
            sum: moved(self.sum, r, w),
            ..self
        })
    }

    pub fn deviation(self) -> f64
        ensures { result ≡ deviation_of self }
    {
        if self.is_empty() {
            return 0.0;
        }
        let temp = self.sum / self.weight;
        let answer = self.sum_squared / self.weight - temp * temp;
        if answer > 0.0 {
            numeric::sqrt(answer).root
        } else {
            0.0
        }
    }

    pub fn is_empty(self) -> bool
        ensures { result ≡ is_empty self }
    {
        self.weight <= 0.0
    }

    pub fn discount(self) -> f64
        ensures { result ≡ self.discount }
    {
        self.discount
    }

    // Takes any discount, as the source does.
    pub fn set_discount(self, discount: f64) -> Deviation
        ensures { result ≡ deviation_set_discount self discount }
    {
        Deviation { discount, ..self }
    }

    pub fn sum(self) -> f64
        ensures { result ≡ self.sum }
    {
        self.sum
    }

    pub fn sum_squared(self) -> f64
        ensures { result ≡ self.sum_squared }
    {
        self.sum_squared
    }

    pub fn weight(self) -> f64
        ensures { result ≡ self.weight }
    {
        self.weight
    }

    pub fn count(self) -> u64
        ensures { result ≡ self.count }
    {
        self.count
    }

    pub fn set_count(self, count: u64) -> Result<Deviation, Refusal>
        ensures { numbered result ≡ deviation_set_count self count }
    {
        if count > COUNT_LIMIT {
            return Err(Refusal::CounterLimit);
        }
        Ok(Deviation { count, ..self })
    }
}
