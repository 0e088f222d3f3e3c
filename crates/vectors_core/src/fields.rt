// The fields of a line, one after another.
ghost use Rattle.std.specs.Prelude.{◌≡◌, ◌<◌, ◌≤◌, ◌+◌, ◌-◌, ◌↔◌, ◌&&◌, [], length, take, drop, get_or, All, IfOk, IfSome, IsOk, IsTrue, OnErr};
ghost use Rattle.arrayvec.specs.ArrayVec.{array_vec_len};
ghost use Rattle.vectors_core.specs.Line.{line_begun};

use crate::field::{Field, Lent, LentNumber, Number, is_untouched};
use arrayvec::ArrayVec;

/// Why a line is not one that agrees: it is not of its form, or an answer is another.
#[derive(Clone, Copy, Debug, PartialEq, Eq)]
pub struct Differs;

/// The fields of a line that are still to be read. Each is ended by a blank, the last by the line's LF.
#[derive(Clone, Copy)]
pub struct Fields<'a> {
    pub rest: &'a [u8],
    // Whether an LF ends the line, and what was taken of it before `rest` was as it should be. A line where it was not differs, but its call is made all the same. What `read` and `expect` refuse,
    // their Err says.
    pub good: bool,
}

impl<'a> Fields<'a> {
    /// A line's letter, and the fields after it.
    pub fn of(line: &'a [u8]) -> (u8, Fields<'a>)
        ensures letter { result.0 ≡ get_or line.now 0 0 }
        ensures rest { result.1.rest.now ≡ drop 2 line.now }
        ensures good { result.1.good ≡ line_begun line.now }
    {
        let letter = line.first().copied().unwrap_or(0);
        let good = matches!(line, [_, b' ' | b'\n', ..]) && matches!(line, [.., b'\n']);
        let rest = line.get(2..).unwrap_or_default();
        (letter, Fields { rest, good })
    }

    // A field, and what is left after the byte that ends it. Where nothing ends it, nothing is read.
    fn next(&mut self) -> Result<&'a [u8], Differs>
        ensures field { IfOk result (λ field. (field.now ≡ take (length field.now) self.old.rest.now) ×
            (self.new.rest.now ≡ drop (length field.now + 1) self.old.rest.now) × (length field.now < length self.old.rest.now)) }
        ensures kept { OnErr result (self.new.rest.now ≡ self.old.rest.now) }
        ensures good { self.new.good ≡ self.old.good }
    {
        let rest = self.rest;
        let end = rest
            .iter()
            .position(|b| *b == b' ' || *b == b'\n')
            .ok_or(Differs)?;
        self.rest = &rest[end + 1..];
        Ok(&rest[..end])
    }

    /// Whether every field was read, and what was taken of the line was as it should be (`good`).
    pub fn finish(&self) -> Result<(), Differs>
        ensures { IsOk result ↔ (IsTrue self.now.good × (self.now.rest.now ≡ [])) }
    {
        if self.good && self.rest.is_empty() {
            Ok(())
        } else {
            Err(Differs)
        }
    }

    /// One more thing that the line depends on.
    pub fn also(&mut self, good: bool)
        ensures { (self.new.rest ≡ self.old.rest) × (self.new.good ≡ (self.old.good && good)) }
    {
        self.good = self.good && good;
    }

    /// A number that stands in a field of its form; another field is none.
    pub fn read<T: Field>(&mut self) -> Result<T, Differs>
        ensures behind { length self.new.rest.now ≤ length self.old.rest.now }
        ensures good { self.new.good ≡ self.old.good }
    {
        T::read(self.next()?).ok_or(Differs)
    }

    /// A number. What is none is taken for one (`Number::taken_for`), and a field that nothing ends for an empty one.
    pub fn take_number<T: Number>(&mut self) -> T
        ensures behind { length self.new.rest.now ≤ length self.old.rest.now }
        ensures good { IsTrue self.new.good → IsTrue self.old.good }
    {
        let field = self.next().unwrap_or_default();
        match T::read_number(field) {
            Some(x) => x,
            None => {
                self.also(false);
                T::taken_for(field)
            }
        }
    }

    /// The one byte of a field that is a letter. A longer field is taken for its first byte, an empty one for 0.
    pub fn letter(&mut self) -> u8
        ensures behind { length self.new.rest.now ≤ length self.old.rest.now }
        ensures good { IsTrue self.new.good → IsTrue self.old.good }
    {
        let field = self.next().unwrap_or_default();
        self.also(field.len() == 1);
        field.first().copied().unwrap_or(0)
    }

    /// The length of a list, at most `most`. A longer one is not as it should be, and taken for 0.
    pub fn length(&mut self, most: usize) -> usize
        ensures behind { length self.new.rest.now ≤ length self.old.rest.now }
        ensures good { IsTrue self.new.good → IsTrue self.old.good }
        ensures within { result ≤ most }
    {
        let n = self.take_number::<u64>();
        if n > most as u64 {
            self.also(false);
            return 0;
        }
        n as usize
    }

    /// As many numbers as `out` is long, each in a field of its form.
    pub fn read_each<T: Field>(&mut self, out: &mut [T]) -> Result<(), Differs>
        ensures behind { length self.new.rest.now ≤ length self.old.rest.now }
        ensures good { self.new.good ≡ self.old.good }
    {
        for x in out.iter_mut() {
            *x = self.read()?;
        }
        Ok(())
    }

    /// As many numbers as `out` is long.
    pub fn take_each<T: Number>(&mut self, out: &mut [T])
        ensures behind { length self.new.rest.now ≤ length self.old.rest.now }
        ensures good { IsTrue self.new.good → IsTrue self.old.good }
    {
        for x in out.iter_mut() {
            *x = self.take_number();
        }
    }

    /// A list, to the front of `out`, each number in a field of its form; how long it is.
    pub fn read_list<T: Field>(&mut self, out: &mut [T]) -> Result<usize, Differs>
        ensures behind { length self.new.rest.now ≤ length self.old.rest.now }
        ensures good { self.new.good ≡ self.old.good }
        ensures within { IfOk result (λ n. n ≤ length out.new) }
    {
        let n: u64 = self.read()?;
        if n > out.len() as u64 {
            return Err(Differs);
        }
        self.read_each(&mut out[..n as usize])?;
        Ok(n as usize)
    }

    /// A list, to the front of `out`; how long it is.
    pub fn take_list<T: Number>(&mut self, out: &mut [T]) -> usize
        ensures behind { length self.new.rest.now ≤ length self.old.rest.now }
        ensures good { IsTrue self.new.good → IsTrue self.old.good }
        ensures within { result ≤ length out.new }
    {
        let n = self.length(out.len());
        self.take_each(&mut out[..n]);
        n
    }

    /// A list of at most `N` numbers, into `list`, which holds it in the value itself: no memory is asked for, of which there may be too little.
    pub fn read_to<T: Number, const N: usize>(&mut self, list: &mut ArrayVec<T, N>)
        ensures behind { length self.new.rest.now ≤ length self.old.rest.now }
        ensures good { IsTrue self.new.good → IsTrue self.old.good }
        ensures within { array_vec_len list.new ≤ N }
    {
        let n = self.length(N);
        list.clear();
        for _ in 0..n {
            list.push(self.take_number());
        }
    }

    /// A list of at most `N` numbers.
    pub fn list<T: Number, const N: usize>(&mut self) -> ArrayVec<T, N>
        ensures behind { length self.new.rest.now ≤ length self.old.rest.now }
        ensures good { IsTrue self.new.good → IsTrue self.old.good }
        ensures within { array_vec_len result ≤ N }
    {
        let mut list = ArrayVec::new();
        self.read_to(&mut list);
        list
    }

    /// A list that may be given: flag 0, or flag 1 and the list.
    pub fn optional<T: Number, const N: usize>(&mut self) -> Option<ArrayVec<T, N>>
        ensures behind { length self.new.rest.now ≤ length self.old.rest.now }
        ensures good { IsTrue self.new.good → IsTrue self.old.good }
        ensures within { IfSome result (λ list. array_vec_len list ≤ N) }
    {
        let mut list = ArrayVec::new();
        self.optional_to(&mut list).then_some(list)
    }

    /// A list that may be given: flag 0, or flag 1 and the list, into `list`. Whether it is given.
    pub fn optional_to<T: Number, const N: usize>(&mut self, list: &mut ArrayVec<T, N>) -> bool
        ensures behind { length self.new.rest.now ≤ length self.old.rest.now }
        ensures good { IsTrue self.new.good → IsTrue self.old.good }
        ensures within { IsTrue result → array_vec_len list.new ≤ N }
    {
        if self.take_number() {
            self.read_to(list);
            return true;
        }
        false
    }

    /// Memory to be lent, in `list`, of which the line gives the length, at most `N`.
    pub fn lend_to<T: LentNumber, const N: usize>(&mut self, list: &mut ArrayVec<T, N>)
        ensures behind { length self.new.rest.now ≤ length self.old.rest.now }
        ensures good { IsTrue self.new.good → IsTrue self.old.good }
        ensures within { array_vec_len list.new ≤ N }
        ensures old { All (λ x. x ≡ T.OLD) list.new.items }
    {
        let n = self.length(N);
        list.clear();
        for _ in 0..n {
            list.push(T::OLD);
        }
    }

    /// Memory to be lent, of which the line gives the length, at most `N`.
    pub fn lent<T: LentNumber, const N: usize>(&mut self) -> ArrayVec<T, N>
        ensures behind { length self.new.rest.now ≤ length self.old.rest.now }
        ensures good { IsTrue self.new.good → IsTrue self.old.good }
        ensures within { array_vec_len result ≤ N }
        ensures old { All (λ x. x ≡ T.OLD) result.items }
    {
        let mut list = ArrayVec::new();
        self.lend_to(&mut list);
        list
    }

    /// The next field is this answer.
    pub fn expect<T: Lent>(&mut self, value: T) -> Result<(), Differs>
        ensures { length self.new.rest.now ≤ length self.old.rest.now }
    {
        if value.is_in(self.next()?) {
            Ok(())
        } else {
            Err(Differs)
        }
    }

    pub fn expect_flag(&mut self, value: bool) -> Result<(), Differs>
        ensures { length self.new.rest.now ≤ length self.old.rest.now }
    {
        self.expect(u64::from(value))
    }

    /// As many fields as there are numbers.
    pub fn expect_each<T: Lent>(&mut self, xs: &[T]) -> Result<(), Differs>
        ensures { length self.new.rest.now ≤ length self.old.rest.now }
    {
        for x in xs {
            self.expect(*x)?;
        }
        Ok(())
    }

    /// A list that stands at the front of `xs`, with the rest of `xs` untouched.
    pub fn expect_list<T: Lent>(&mut self, xs: &[T]) -> Result<(), Differs>
        ensures { length self.new.rest.now ≤ length self.old.rest.now }
    {
        let n = self.length(xs.len());
        if !self.good {
            return Err(Differs);
        }
        self.expect_each(&xs[..n])?;
        expect_untouched(&xs[n..])
    }

    /// Whether a list is written, and the list; where none is, its memory stays.
    pub fn expect_given<T: Lent>(&mut self, given: bool, out: &[T]) -> Result<(), Differs>
        ensures { length self.new.rest.now ≤ length self.old.rest.now }
    {
        self.expect_flag(given)?;
        if given {
            self.expect_list(out)
        } else {
            expect_untouched(out)
        }
    }

    /// The row of a call that writes one list, and what it wrote.
    pub fn expect_written<T: Lent>(&mut self, row: u64, out: &[T]) -> Result<(), Differs>
        ensures { length self.new.rest.now ≤ length self.old.rest.now }
    {
        self.expect(row)?;
        if row == 0 {
            self.expect_list(out)
        } else {
            expect_untouched(out)
        }
    }
}

/// Whether lent memory holds what it held before a call.
pub fn expect_untouched<T: Lent>(xs: &[T]) -> Result<(), Differs>
    ensures { IsOk result ↔ All (λ x. IsTrue (T.same x T.OLD)) xs.now }
{
    if is_untouched(xs) {
        Ok(())
    } else {
        Err(Differs)
    }
}
