// Values with their upper and lower bounds: three lists, which a line gives, or which a call writes to.
ghost use Rattle.std.specs.Prelude.{◌≡◌, ◌↔◌, ◌≤◌, [], length, All, IsOk, IsTrue};
ghost use Rattle.arrayvec.specs.ArrayVec.{array_vec_len};

use crate::field::LentNumber;
use crate::fields::{Differs, Fields, expect_untouched};
use arrayvec::ArrayVec;

#[derive(Drop)]
pub struct Bounded<T: LentNumber, const N: usize> {
    pub values: ArrayVec<T, N>,
    pub upper: ArrayVec<T, N>,
    pub lower: ArrayVec<T, N>,
}

impl<T: LentNumber, const N: usize> Bounded<T, N> {
    /// Three empty lists.
    pub fn new() -> Bounded<T, N>
        ensures { (result.values.items ≡ []) × (result.upper.items ≡ []) × (result.lower.items ≡ []) }
    {
        Bounded {
            values: ArrayVec::new(),
            upper: ArrayVec::new(),
            lower: ArrayVec::new(),
        }
    }

    /// Three lists that stand in the line, each of at most `N` numbers.
    pub fn read(&mut self, fields: &mut Fields<'_>)
        ensures behind { length fields.new.rest.now ≤ length fields.old.rest.now }
        ensures good { IsTrue fields.new.good → IsTrue fields.old.good }
        ensures within { (array_vec_len self.new.values ≤ N) × (array_vec_len self.new.upper ≤ N) × (array_vec_len self.new.lower ≤ N) }
    {
        fields.read_to(&mut self.values);
        fields.read_to(&mut self.upper);
        fields.read_to(&mut self.lower);
    }

    /// Memory to be lent, of which the line gives the three lengths, each at most `N`.
    pub fn lend(&mut self, fields: &mut Fields<'_>)
        ensures behind { length fields.new.rest.now ≤ length fields.old.rest.now }
        ensures good { IsTrue fields.new.good → IsTrue fields.old.good }
        ensures within { (array_vec_len self.new.values ≤ N) × (array_vec_len self.new.upper ≤ N) × (array_vec_len self.new.lower ≤ N) }
        ensures old { All (λ x. x ≡ T.OLD) self.new.values.items × All (λ x. x ≡ T.OLD) self.new.upper.items × All (λ x. x ≡ T.OLD) self.new.lower.items }
    {
        fields.lend_to(&mut self.values);
        fields.lend_to(&mut self.upper);
        fields.lend_to(&mut self.lower);
    }

    /// The next fields are these three lists, with what lies past them untouched.
    pub fn expect(&self, fields: &mut Fields<'_>) -> Result<(), Differs>
        ensures { length fields.new.rest.now ≤ length fields.old.rest.now }
    {
        fields.expect_list(&self.values)?;
        fields.expect_list(&self.upper)?;
        fields.expect_list(&self.lower)
    }

    pub fn expect_untouched(&self) -> Result<(), Differs>
        ensures { IsOk result ↔ (All (λ x. IsTrue (T.same x T.OLD)) self.now.values.items × All (λ x. IsTrue (T.same x T.OLD)) self.now.upper.items ×
            All (λ x. IsTrue (T.same x T.OLD)) self.now.lower.items) }
    {
        expect_untouched(&self.values)?;
        expect_untouched(&self.upper)?;
        expect_untouched(&self.lower)
    }

    /// The row of a call that writes to these lists, and what it wrote.
    pub fn expect_written(&self, fields: &mut Fields<'_>, row: u64) -> Result<(), Differs>
        ensures { length fields.new.rest.now ≤ length fields.old.rest.now }
    {
        fields.expect(row)?;
        if row == 0 {
            self.expect(fields)
        } else {
            self.expect_untouched()
        }
    }

    /// The row of a call that changes these lists, which a refused one leaves as the line gives them.
    pub fn expect_changed(
        &self,
        mut given: Fields<'_>,
        fields: &mut Fields<'_>,
        row: u64,
    ) -> Result<(), Differs>
        ensures { length fields.new.rest.now ≤ length fields.old.rest.now }
    {
        fields.expect(row)?;
        if row == 0 {
            self.expect(fields)
        } else {
            self.expect(&mut given)
        }
    }
}
