// The digits of a field, one after another: the number, and whether they are those of a number below 2^64. A field of another form is taken for a number too.
ghost use Rattle.std.specs.Char.{digit_value};
ghost use Rattle.std.specs.Prelude.{if◌then◌else◌, ◌≡◌, ◌<◌, ◌+◌, ◌*◌, length, IfSome, IsTrue, None, Some};
ghost use Rattle.std.specs.Str.Parse.{digits_value};
ghost use Rattle.vectors_core.specs.Digits as Spec;

// What digits are taken for, and whether they are those of a number.
#[derive(Clone, Copy)]
pub(crate) struct Digits {
    pub good: bool,
    pub value: u64,
}

impl Digits {
    // The number, where the digits are those of one.
    pub(crate) fn number(self) -> Option<u64>
        ensures { result ≡ (if self.good then Some self.value else None) }
    {
        if self.good { Some(self.value) } else { None }
    }

    // One decimal digit more, if the number stays below 2^64.
    fn with_decimal(self, d: u64) -> Digits
        ensures value { result.value ≡ Spec.with_decimal self.value d }
        ensures good { IsTrue result.good → IsTrue self.good × (d < 10) × (result.value ≡ self.value * 10 + d) }
    {
        let last = d % 10;
        if self.value <= (u64::MAX - last) / 10 {
            return Digits {
                good: self.good && d < 10,
                value: self.value * 10 + last,
            };
        }
        Digits {
            good: false,
            value: 0,
        }
    }

    // One hexadecimal digit more, where 64 bits hold the number.
    fn with_hexadecimal(self, d: u64) -> Digits
        ensures value { result.value ≡ Spec.with_hexadecimal self.value d }
        ensures good { IsTrue result.good → IsTrue self.good × (d < 16) × (result.value ≡ self.value * 16 + d) }
    {
        Digits {
            good: self.good && d < 16 && self.value < 0x1000_0000_0000_0000,
            value: self.value % 0x1000_0000_0000_0000 * 16 + d % 16,
        }
    }
}

// A digit's value; 16 for any other byte.
fn digit(b: u8) -> u64
    ensures value { result ≡ Spec.digit b }
    ensures known { result < 16 → result ≡ digit_value b }
{
    match b {
        b'0'..=b'9' => u64::from(b - b'0'),
        b'a'..=b'f' => u64::from(b - b'a') + 10,
        _ => 16,
    }
}

// A decimal number of at least one digit, below 2^64.
pub(crate) fn decimal(text: &[u8]) -> Digits
    ensures value { result.value ≡ Spec.decimal text.now }
    ensures good { IsTrue result.good → result.value ≡ digits_value 10 text.now }
{
    let mut digits = Digits {
        good: !text.is_empty(),
        value: 0,
    };
    for b in text {
        digits = digits.with_decimal(digit(*b));
    }
    digits
}

// A number of `n` hexadecimal digits, in lower case. Of more than 16 digits the last 16 are taken.
pub(crate) fn hexadecimal(text: &[u8], n: usize) -> Digits
    ensures value { result.value ≡ Spec.hexadecimal text.now }
    ensures good { IsTrue result.good → (length text.now ≡ n) × (result.value ≡ digits_value 16 text.now) }
{
    let mut digits = Digits {
        good: text.len() == n,
        value: 0,
    };
    for b in text {
        digits = digits.with_hexadecimal(digit(*b));
    }
    digits
}

// The number of `n` hexadecimal digits, in lower case. No byte is looked at behind one that is no digit.
pub(crate) fn hexadecimal_number(text: &[u8], n: usize) -> Option<u64>
    ensures value { IfSome result (λ value. value ≡ Spec.hexadecimal text.now) }
    ensures digits { IfSome result (λ value. (length text.now ≡ n) × (value ≡ digits_value 16 text.now)) }
{
    if text.len() != n {
        return None;
    }
    let mut digits = Digits {
        good: true,
        value: 0,
    };
    for b in text {
        digits = digits.with_hexadecimal(digit(*b));
        if !digits.good {
            return None;
        }
    }
    digits.number()
}
