// A quantity with its upper and lower bounds (the source's common/rangevector.rs), at f32 and at f64: three lent lists,
// and by value what stands at one index of them. A call that is refused leaves the lists as they were.
ghost use Rattle.std.specs.Prelude.{◌≡◌, not, ◌&&◌, ◌||◌, cond, [], ◌∷◌, ◌++◌, ◌+◌, ◌≤◌, ◌<◌, ltb, leb, eqb, length, get_or, replicate, OnOk};
ghost use Rattle.std.specs.Float.{binary32, binary64};
ghost use Rattle.refusal.specs.Refusal.{first_of, row_of};
ghost use Rattle.refusal.specs.Lent.{over};
ghost use Rattle.ranges.specs.RangeVector.{Operations, operations_of, settled_by, shifted_by, scaled_by, ranges, held, AreSameLoans, range_at_or, put_at, range_outcome};
ghost use Rattle.ranges.specs.RangeVector.{range_shift_by, range_scale_by, cascade_by, range_cascaded_add_by, range_new_by, range_from, range_create_by, in_order_by};
ghost use Rattle.ranges.specs.RangeVector.{unequal_at, unequal, unblocked, shorter};

use refusal::Refusal;

/// A width of floats, with what a range asks of its numbers.
// Kept: (d) five methods and not std's operators as bounds, of which each width would have to prove seven laws in the place of these lines.
pub trait Width: Copy {
    ghost operations: { Operations Self };

    fn zero() -> Self
        ensures { result ≡ operations.zero_value };

    fn plus(self, other: Self) -> Self
        ensures { result ≡ operations.plus self other };

    fn times(self, other: Self) -> Self
        ensures { result ≡ operations.times self other };

    fn is_below(self, other: Self) -> bool
        ensures { result ≡ operations.below self other };

    fn is_at_most(self, other: Self) -> bool
        ensures { result ≡ operations.at_most self other };

    // A clone is the number itself, and is always to be had.
    ghost clone_is: { (x y : Self) → Self.is_clone x y → y ≡ x };

    ghost clones: { (x : Self) → Self.is_infallible x };
}

impl Width for f32 {
    ghost operations = { operations_of binary32 };

    ghost clone_is = { λ x y e. e };

    ghost clones = { λ x. tt };

    fn zero() -> f32 {
        0.0
    }

    fn plus(self, other: f32) -> f32 {
        self + other
    }

    fn times(self, other: f32) -> f32 {
        self * other
    }

    fn is_below(self, other: f32) -> bool {
        self < other
    }

    fn is_at_most(self, other: f32) -> bool {
        self <= other
    }
}

impl Width for f64 {
    ghost operations = { operations_of binary64 };

    ghost clone_is = { λ x y e. e };

    ghost clones = { λ x. tt };

    fn zero() -> f64 {
        0.0
    }

    fn plus(self, other: f64) -> f64 {
        self + other
    }

    fn times(self, other: f64) -> f64 {
        self * other
    }

    fn is_below(self, other: f64) -> bool {
        self < other
    }

    fn is_at_most(self, other: f64) -> bool {
        self <= other
    }
}

// ---- lengths

// Of the lists of a range, and of three lists that are to be written to one.
fn are_unequal(values: usize, upper: usize, lower: usize) -> bool
    ensures { result ≡ unequal_at values upper lower }
{
    values != upper || values != lower
}

// Whether the values make no blocks of the base's length to cascade: no base, no block, or a broken one.
pub fn is_unblocked(base: usize, values: usize) -> bool
    ensures { result ≡ unblocked base values }
{
    base == 0 || values == 0 || values % base != 0
}

// ---- one index

// What the three lists hold at one index.
#[derive(Clone, Copy, Debug, PartialEq)]
pub struct Range<T> {
    pub value: T,
    pub upper: T,
    pub lower: T,
}

// The upper bound, raised to the value if below it.
fn raised<T: Width>(upper: T, value: T) -> T
    ensures { result ≡ cond (T.operations.below upper value) value upper }
{
    if upper.is_below(value) { value } else { upper }
}

// The lower bound, lowered to the value if above it.
fn lowered<T: Width>(lower: T, value: T) -> T
    ensures { result ≡ cond (T.operations.below value lower) value lower }
{
    if value.is_below(lower) { value } else { lower }
}

fn settled<T: Width>(value: T, upper: T, lower: T) -> Range<T>
    ensures { result ≡ settled_by T.operations.below value upper lower }
{
    Range {
        value,
        upper: raised(upper, value),
        lower: lowered(lower, value),
    }
}

impl<T: Width> Range<T> {
    pub fn shift(self, shift: T) -> Range<T>
        ensures { result ≡ shifted_by T.operations self shift }
    {
        settled(
            self.value.plus(shift),
            self.upper.plus(shift),
            self.lower.plus(shift),
        )
    }

    pub fn scale(self, scale: T) -> Range<T>
        ensures { result ≡ scaled_by T.operations self scale }
    {
        settled(
            self.value.times(scale),
            self.upper.times(scale),
            self.lower.times(scale),
        )
    }

    // Whether lower ≤ value ≤ upper, which no not-a-number meets.
    fn is_ordered(self) -> bool
        ensures { result ≡ (T.operations.at_most self.value self.upper && T.operations.at_most self.lower self.value) }
    {
        self.value.is_at_most(self.upper) && self.lower.is_at_most(self.value)
    }
}

// What the three lists hold at index i.
fn at<T: Width>(values: &[T], upper: &[T], lower: &[T], i: usize) -> Range<T>
    requires { (i < length values.now) × (i < length upper.now) × (i < length lower.now) }
    ensures { result ≡ range_at_or T.operations.missing (ranges values.now upper.now lower.now) i }
{
    Range {
        value: values[i],
        upper: upper[i],
        lower: lower[i],
    }
}

// ---- what a new range is made of

// n zeros stand at the front of list.
fn zero_front<T: Width>(list: &mut [T], n: usize)
    requires { n ≤ length list.old }
    ensures { list.new ≡ over list.old (replicate n T.operations.zero_value) }
{
    list[..n].fill(T::zero());
}

// All of source stands at the front of list.
fn copy_front<T: Width>(list: &mut [T], source: &[T])
    requires { length source.now ≤ length list.old }
    ensures { list.new ≡ over list.old source.now }
{
    list[..source.len()].copy_from_slice(source);
}

// Whether lower ≤ values ≤ upper everywhere.
fn are_in_order<T: Width>(values: &[T], upper: &[T], lower: &[T]) -> bool
    requires { (length values.now ≡ length upper.now) × (length values.now ≡ length lower.now) }
    ensures { result ≡ in_order_by T.operations.at_most values.now upper.now lower.now }
{
    for i in 0..values.len() {
        if !at(values, upper, lower, i).is_ordered() {
            return false;
        }
    }
    true
}

// ---- the three lists

/// A quantity with its upper and lower bounds, in three lists that the caller lends.
#[derive(Drop)]
pub struct RangeVector<'a, T> {
    pub values: &'a mut [T],
    pub upper: &'a mut [T],
    pub lower: &'a mut [T],
}

impl<T: Width> RangeVector<'_, T> {
    // ---- which row refuses

    // Row 14: the index lies past one of the lists.
    fn check_index(&self, i: usize) -> Result<(), Refusal>
        ensures value { row_of result
            ≡ first_of ((leb (length self.now.values.now) i || (leb (length self.now.upper.now) i || leb (length self.now.lower.now) i), 14) ∷ []) }
        ensures i_lt_values { OnOk result
            ((i < length self.now.values.now) × (i < length self.now.upper.now) × (i < length self.now.lower.now)) }
    {
        if self.values.len() <= i || self.upper.len() <= i || self.lower.len() <= i {
            return Err(Refusal::RelativeIndex);
        }
        Ok(())
    }

    // Row 20: one of the lists is shorter than what is to be written.
    #[tactic(auto, unfolding(crate::specs::RangeVector::shorter))]
    fn check_room(&self, n: usize) -> Result<(), Refusal>
        ensures value { row_of result ≡ first_of ((shorter (held self.now) n, 20) ∷ []) }
        ensures n_le_values { OnOk result
            ((n ≤ length self.now.values.now) × (n ≤ length self.now.upper.now) × (n ≤ length self.now.lower.now)) }
    {
        if self.values.len() < n || self.upper.len() < n || self.lower.len() < n {
            return Err(Refusal::TooShort);
        }
        Ok(())
    }

    // Row 16 of the cascade.
    #[tactic(auto, unfolding(crate::specs::RangeVector::unequal))]
    fn check_blocks(&self, base: usize) -> Result<(), Refusal>
        ensures value { row_of result
            ≡ first_of ((unequal (held self.now) || unblocked base (length self.now.values.now), 16) ∷ []) }
        ensures values_value { OnOk result
            ((length self.now.values.now ≡ length self.now.upper.now) × (length self.now.values.now ≡ length self.now.lower.now)) }
    {
        let n = self.values.len();
        if are_unequal(n, self.upper.len(), self.lower.len()) || is_unblocked(base, n) {
            return Err(Refusal::ForecastShape);
        }
        Ok(())
    }

    // Rows 16, 17 and 20 of what is to be written.
    fn check_create(&self, v: &[T], u: &[T], l: &[T]) -> Result<(), Refusal>
        ensures value { row_of result ≡ first_of ((unequal (ranges v.now u.now l.now), 16)
            ∷ (not (in_order_by T.operations.at_most v.now u.now l.now), 17)
            ∷ (shorter (held self.now) (length v.now), 20) ∷ []) }
        ensures v_len_bound { OnOk result ((length v.now ≤ length self.now.values.now)
            × (length u.now ≤ length self.now.upper.now) × (length l.now ≤ length self.now.lower.now)) }
    {
        if are_unequal(v.len(), u.len(), l.len()) {
            return Err(Refusal::ForecastShape);
        }
        if !are_in_order(v, u, l) {
            return Err(Refusal::BoundsCrossed);
        }
        self.check_room(v.len())
    }

    // ---- at one index

    // What stands at index i.
    fn at(&self, i: usize) -> Range<T>
        requires { (i < length self.now.values.now) × (i < length self.now.upper.now) × (i < length self.now.lower.now) }
        ensures { result ≡ range_at_or T.operations.missing (held self.now) i }
    {
        at(self.values, self.upper, self.lower, i)
    }

    // r stands at index i.
    fn put(&mut self, i: usize, r: Range<T>)
        requires { (i < length self.old.values.now) × (i < length self.old.upper.now) × (i < length self.old.lower.now) }
        ensures after { held self.new ≡ put_at (held self.old) i r }
        ensures loans { AreSameLoans self.old self.new }
    {
        self.values[i] = r.value;
        self.upper[i] = r.upper;
        self.lower[i] = r.lower;
    }

    // A shift at an index that all three lists have.
    fn shift_at(&mut self, i: usize, shift: T)
        requires { (i < length self.old.values.now) × (i < length self.old.upper.now) × (i < length self.old.lower.now) }
        ensures after { held self.new
            ≡ put_at (held self.old) i (shifted_by T.operations (range_at_or T.operations.missing (held self.old) i) shift) }
        ensures loans { AreSameLoans self.old self.new }
    {
        let r = self.at(i).shift(shift);
        self.put(i, r);
    }

    // What index i is shifted by: the base in the first block, later the value one block before.
    fn before(&self, base: &[T], i: usize) -> T
        requires { i < length self.now.values.now }
        ensures { result ≡ get_or (base.now ++ self.now.values.now) i T.operations.missing }
    {
        let b = base.len();
        if i < b { base[i] } else { self.values[i - b] }
    }

    // The cascade over lists of one length.
    fn cascade(&mut self, base: &[T])
        requires { (length self.old.values.now ≡ length self.old.upper.now) × (length self.old.values.now ≡ length self.old.lower.now) }
        ensures after { held self.new ≡ cascade_by T.operations base.now (length self.old.values.now) (held self.old) }
        ensures loans { AreSameLoans self.old self.new }
    {
        for i in 0..self.values.len() {
            let x = self.before(base, i);
            self.shift_at(i, x);
        }
    }

    pub fn shift(&mut self, i: usize, shift: T) -> Result<(), Refusal>
        ensures after { range_outcome (row_of result) (held self.new) ≡ range_shift_by T.operations (held self.old) i shift }
        ensures loans { AreSameLoans self.old self.new }
    {
        self.check_index(i)?;
        self.shift_at(i, shift);
        Ok(())
    }

    pub fn scale(&mut self, i: usize, scale: T) -> Result<(), Refusal>
        ensures after { range_outcome (row_of result) (held self.new) ≡ range_scale_by T.operations (held self.old) i scale }
        ensures loans { AreSameLoans self.old self.new }
    {
        self.check_index(i)?;
        let r = self.at(i).scale(scale);
        self.put(i, r);
        Ok(())
    }

    // The first block is shifted by the base, each later one by the values of the one before.
    pub fn cascaded_add(&mut self, base: &[T]) -> Result<(), Refusal>
        ensures after { range_outcome (row_of result) (held self.new) ≡ range_cascaded_add_by T.operations base.now (held self.old) }
        ensures loans { AreSameLoans self.old self.new }
    {
        self.check_blocks(base.len())?;
        self.cascade(base);
        Ok(())
    }

    // Zeros, so many, stand at the front of each list.
    pub fn new(&mut self, dimensions: usize) -> Result<(), Refusal>
        ensures after { range_outcome (row_of result) (held self.new)
            ≡ range_new_by T.operations.zero_value dimensions (held self.old) }
        ensures loans { AreSameLoans self.old self.new }
    {
        self.check_room(dimensions)?;
        zero_front(self.values, dimensions);
        zero_front(self.upper, dimensions);
        zero_front(self.lower, dimensions);
        Ok(())
    }

    // The values x stand at the front, with themselves as bounds.
    pub fn from(&mut self, x: &[T]) -> Result<(), Refusal>
        ensures after { range_outcome (row_of result) (held self.new) ≡ range_from x.now (held self.old) }
        ensures loans { AreSameLoans self.old self.new }
    {
        self.check_room(x.len())?;
        copy_front(self.values, x);
        copy_front(self.upper, x);
        copy_front(self.lower, x);
        Ok(())
    }

    // The values v with the bounds u and l stand at the front.
    pub fn create(&mut self, v: &[T], u: &[T], l: &[T]) -> Result<(), Refusal>
        ensures after { range_outcome (row_of result) (held self.new)
            ≡ range_create_by T.operations.at_most (ranges v.now u.now l.now) (held self.old) }
        ensures loans { AreSameLoans self.old self.new }
    {
        self.check_create(v, u, l)?;
        copy_front(self.values, v);
        copy_front(self.upper, u);
        copy_front(self.lower, l);
        Ok(())
    }
}
