// What may stand in a field, and the memory that is lent to a call. That memory is filled with one value before; what lies past an answer must still be this value.
ghost use Rattle.std.specs.Float.Ieee.{to_bits};
ghost use Rattle.std.specs.Float.{binary32, binary64};
ghost use Rattle.std.specs.Prelude.{◌≡◌, ◌↔◌, ◌≤◌, ◌%◌, ℕ, eqb, from_bits, length, All, Bool, IfSome, IsTrue, List};
ghost use Rattle.std.specs.Str.Parse.{digits_value};
ghost use Rattle.vectors_core.specs.Digits as Digits;
ghost use Rattle.vectors_core.specs.Digits.{decimal, hexadecimal, signed_decimal};
ghost use Rattle.vectors_core.specs.Old.{old32, old64, old_whole};

use crate::digits::{decimal, hexadecimal, hexadecimal_number};
use std::num::{
    f32_from_bits_with_nan, f32_to_bits_with_nan, f64_from_bits_with_nan, f64_to_bits_with_nan,
};

/// A pattern of `n` hexadecimal digits.
pub fn pattern(text: &[u8], n: usize) -> Option<u64>
    ensures digits { IfSome result (λ value. (length text.now ≡ n) × (value ≡ digits_value 16 text.now)) }
    ensures taken { IfSome result (λ value. value ≡ Digits.hexadecimal text.now) }
{
    hexadecimal_number(text, n)
}

/// A kind of number that stands in a field.
pub trait Field: Copy {
    /// The number of a field that is of its form.
    fn read(text: &[u8]) -> Option<Self>;
}

/// A kind of number for which every field is taken, also one that is not of its form.
pub trait Number: Field + Default {
    ghost taken: { List ℕ → Self };

    /// The number of a field that is of its form.
    fn read_number(text: &[u8]) -> Option<Self>
        ensures { IfSome result (λ x. x ≡ taken text.now) };

    /// What a field is taken for, also where it is not of its form: a line that holds such a field differs, but its call is made all the same.
    fn taken_for(text: &[u8]) -> Self
        ensures { result ≡ taken text.now };
}

/// A kind of number that lent memory holds. A float is compared by its pattern, every not-a-number by the one that the vectors have.
pub trait Lent: Field {
    /// What lent memory holds before a call.
    const OLD: Self;

    ghost OLD: { Self };

    ghost same: { Self → Self → Bool };

    fn same(self, other: Self) -> bool
        ensures { result ≡ same self other };

    /// Whether a field is this number. Where an impl does not say how, the number that is read has to be the same.
    fn is_in(self, field: &[u8]) -> bool {
        match Self::read(field) {
            Some(x) => x.same(self),
            None => false,
        }
    }
}

/// A kind of number of lent memory whose field is told by its digits. Its `is_in` is to be this `stands`, so that an answer is compared with the field's own digits.
pub trait LentNumber: Lent + Number {
    // the number that stands in a field, and its radix
    ghost number: { Self → ℕ };

    ghost radix: { ℕ };

    /// Whether a field is this number. The field of a float is its pattern, and of the patterns of not-a-numbers only the one that the vectors have is a field.
    fn stands(self, text: &[u8]) -> bool
        ensures { IsTrue result → number self ≡ digits_value radix text.now };
}

impl Field for u64 {
    fn read(text: &[u8]) -> Option<u64>
        ensures { IfSome result (λ x. x ≡ decimal text.now) }
    {
        u64::read_number(text)
    }
}

impl Number for u64 {
    ghost taken = { decimal };

    fn read_number(text: &[u8]) -> Option<u64> {
        decimal(text).number()
    }

    fn taken_for(text: &[u8]) -> u64 {
        decimal(text).value
    }
}

impl Lent for u64 {
    const OLD: u64 = 12345678;

    ghost OLD = { old_whole };

    ghost same = { eqb };

    fn same(self, other: u64) -> bool {
        self == other
    }

    fn is_in(self, field: &[u8]) -> bool
        ensures { IsTrue result → self ≡ digits_value 10 field.now }
    {
        self.stands(field)
    }
}

impl LentNumber for u64 {
    ghost number = { λ x. x };

    ghost radix = { 10 };

    fn stands(self, text: &[u8]) -> bool {
        let digits = decimal(text);
        digits.good && digits.value == self
    }
}

impl Field for u16 {
    fn read(text: &[u8]) -> Option<u16>
        ensures { IfSome result (λ x. x ≡ decimal text.now % 65536) }
    {
        u16::read_number(text)
    }
}

/// Of a larger number the low 16 bits are taken.
impl Number for u16 {
    ghost taken = { λ text. decimal text % 65536 };

    fn read_number(text: &[u8]) -> Option<u16> {
        u16::try_from(u64::read_number(text)?).ok()
    }

    fn taken_for(text: &[u8]) -> u16 {
        (u64::taken_for(text) % 65536) as u16
    }
}

// Of a larger number the low 31 bits are taken.
fn signed(negative: bool, n: u64) -> i32
    ensures { result ≡ Digits.signed negative n }
{
    if !negative {
        return (n % 0x8000_0000) as i32;
    }
    if n == 0 {
        return 0;
    }
    -(((n - 1) % 0x8000_0000) as i32) - 1
}

/// With `-` in front where it is negative.
impl Field for i32 {
    fn read(text: &[u8]) -> Option<i32>
        ensures { IfSome result (λ x. x ≡ signed_decimal text.now) }
    {
        i32::read_number(text)
    }
}

impl Number for i32 {
    ghost taken = { signed_decimal };

    fn read_number(text: &[u8]) -> Option<i32> {
        match text {
            [b'-', digits @ ..] => match u64::read_number(digits)? {
                n @ 0..=0x8000_0000 => Some(signed(true, n)),
                _ => None,
            },
            digits => match u64::read_number(digits)? {
                n @ 0..=0x7fff_ffff => Some(signed(false, n)),
                _ => None,
            },
        }
    }

    fn taken_for(text: &[u8]) -> i32 {
        match text {
            [b'-', digits @ ..] => signed(true, u64::taken_for(digits)),
            digits => signed(false, u64::taken_for(digits)),
        }
    }
}

/// A flag.
impl Field for bool {
    fn read(text: &[u8]) -> Option<bool>
        ensures { IfSome result (λ x. x ≡ eqb (decimal text.now) 1) }
    {
        bool::read_number(text)
    }
}

impl Number for bool {
    ghost taken = { λ text. eqb (decimal text) 1 };

    fn read_number(text: &[u8]) -> Option<bool> {
        match u64::read_number(text)? {
            0 => Some(false),
            1 => Some(true),
            _ => None,
        }
    }

    fn taken_for(text: &[u8]) -> bool {
        u64::taken_for(text) == 1
    }
}

impl Field for f64 {
    fn read(text: &[u8]) -> Option<f64>
        ensures { IfSome result (λ x. x ≡ from_bits binary64 (hexadecimal text.now)) }
    {
        f64::read_number(text)
    }
}

impl Number for f64 {
    ghost taken = { λ text. from_bits binary64 (hexadecimal text) };

    fn read_number(text: &[u8]) -> Option<f64> {
        Some(f64_from_bits_with_nan(pattern(text, 16)?))
    }

    fn taken_for(text: &[u8]) -> f64 {
        f64_from_bits_with_nan(hexadecimal(text, 16).value)
    }
}

impl Lent for f64 {
    const OLD: f64 = 12345.678;

    ghost OLD = { old64 };

    ghost same = { λ x y. eqb (to_bits binary64 x) (to_bits binary64 y) };

    fn same(self, other: f64) -> bool {
        f64_to_bits_with_nan(self) == f64_to_bits_with_nan(other)
    }

    fn is_in(self, field: &[u8]) -> bool
        ensures { IsTrue result → to_bits binary64 self ≡ digits_value 16 field.now }
    {
        self.stands(field)
    }
}

impl LentNumber for f64 {
    ghost number = { to_bits binary64 };

    ghost radix = { 16 };

    fn stands(self, text: &[u8]) -> bool {
        pattern(text, 16) == Some(f64_to_bits_with_nan(self))
    }
}

impl Field for f32 {
    fn read(text: &[u8]) -> Option<f32>
        ensures { IfSome result (λ x. x ≡ from_bits binary32 (hexadecimal text.now % 4294967296)) }
    {
        f32::read_number(text)
    }
}

/// Of a longer pattern the low 32 bits are taken.
impl Number for f32 {
    ghost taken = { λ text. from_bits binary32 (hexadecimal text % 4294967296) };

    fn read_number(text: &[u8]) -> Option<f32> {
        let bits = u32::try_from(pattern(text, 8)?).ok()?;
        Some(f32_from_bits_with_nan(bits))
    }

    fn taken_for(text: &[u8]) -> f32 {
        f32_from_bits_with_nan((hexadecimal(text, 8).value % 0x1_0000_0000) as u32)
    }
}

impl Lent for f32 {
    const OLD: f32 = 12345.678;

    ghost OLD = { old32 };

    ghost same = { λ x y. eqb (to_bits binary32 x) (to_bits binary32 y) };

    fn same(self, other: f32) -> bool {
        f32_to_bits_with_nan(self) == f32_to_bits_with_nan(other)
    }

    fn is_in(self, field: &[u8]) -> bool
        ensures { IsTrue result → to_bits binary32 self ≡ digits_value 16 field.now }
    {
        self.stands(field)
    }
}

impl LentNumber for f32 {
    ghost number = { to_bits binary32 };

    ghost radix = { 16 };

    fn stands(self, text: &[u8]) -> bool {
        pattern(text, 8) == Some(u64::from(f32_to_bits_with_nan(self)))
    }
}

/// Whether lent memory holds what it held before a call.
pub fn is_untouched<T: Lent>(xs: &[T]) -> bool
    ensures { IsTrue result ↔ All (λ x. IsTrue (T.same x T.OLD)) xs.now }
{
    xs.iter().all(|x| x.same(T::OLD))
}
