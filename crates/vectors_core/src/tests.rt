// Tests of `read`, `read_each`, `read_list`, and of the answers of a type that writes of the traits no more than they ask.
ghost use Rattle.std.specs.Prelude.{eqb};

use crate::field::{Field, Lent, is_untouched};
use crate::fields::{Differs, Fields, expect_untouched};

// A byte that stands alone in its field.
#[derive(Clone, Copy, Debug, PartialEq, Eq)]
struct Letter {
    byte: u8,
}

impl Field for Letter {
    fn read(text: &[u8]) -> Option<Letter> {
        match text {
            [byte] => Some(Letter { byte: *byte }),
            _ => None,
        }
    }
}

impl Lent for Letter {
    const OLD: Letter = Letter { byte: b'.' };

    ghost OLD = { record { byte = 46 } };

    ghost same = { λ x y. eqb x.byte y.byte };

    fn same(self, other: Letter) -> bool {
        self.byte == other.byte
    }
}

const A: Letter = Letter { byte: b'a' };

const B: Letter = Letter { byte: b'b' };

#[test]
fn letters_are_read_as_long_as_they_stand_alone(rt: HostRuntime) {
    let (_, mut fields) = Fields::of(b"x a b a 2 b b ab\n");
    let mut two = [Letter::OLD; 2];
    let mut three = [Letter::OLD; 3];
    assert_eq!(rt; fields.read(), Ok(A));
    assert_eq!(rt; fields.read_each(&mut two), Ok(()));
    assert_eq!(rt; two, [B, A]);
    assert_eq!(rt; fields.read_list(&mut three), Ok(2));
    assert_eq!(rt; three, [B, B, Letter::OLD]);
    assert_eq!(rt; fields.read::<Letter>(), Err(Differs));
    assert_eq!(rt; fields.finish(), Ok(()));
    assert_eq!(rt; fields.read::<Letter>(), Err(Differs));
    assert_eq!(rt; fields.read_each(&mut two), Err(Differs));
}

#[test]
fn answers_that_are_letters_are_expected(rt: HostRuntime) {
    let (_, mut fields) = Fields::of(b"x a 2 a b b\n");
    assert_eq!(rt; fields.expect(A), Ok(()));
    assert_eq!(rt; fields.expect_list(&[A, B, Letter::OLD]), Ok(()));
    assert_eq!(rt; fields.expect(A), Err(Differs));
    assert_eq!(rt; expect_untouched(&[Letter::OLD, A]), Err(Differs));
}

#[test]
fn letters_that_a_call_writes_are_expected(rt: HostRuntime) {
    let (_, mut fields) = Fields::of(b"x a b 1 1 a 0 0 1 b 7 0 1 a 1 a\n");
    assert_eq!(rt; fields.expect_each(&[A, B]), Ok(()));
    assert_eq!(rt; fields.expect_given(true, &[A, Letter::OLD]), Ok(()));
    assert_eq!(rt; fields.expect_given(false, &[Letter::OLD]), Ok(()));
    assert_eq!(rt; fields.expect_written(0, &[B, Letter::OLD]), Ok(()));
    assert_eq!(rt; fields.expect_written(7, &[Letter::OLD]), Ok(()));
    assert_eq!(rt; fields.expect_written(0, &[B]), Err(Differs));
    assert_eq!(rt; fields.expect_each(&[B]), Err(Differs));
    assert_eq!(rt; is_untouched(&[Letter::OLD]), true);
    assert_eq!(rt; is_untouched(&[Letter::OLD, A]), false);
}

#[test]
fn numbers_of_another_form_are_not_read(rt: HostRuntime) {
    let (_, mut fields) = Fields::of(
        b"x 12 1a  18446744073709551615 18446744073709551616 -7 2 1 65536 65535 3f800000 3F800000 3ff0000000000000 3\n",
    );
    assert_eq!(rt; fields.read(), Ok(12u64));
    assert_eq!(rt; fields.read::<u64>(), Err(Differs));
    assert_eq!(rt; fields.read::<u64>(), Err(Differs));
    assert_eq!(rt; fields.read(), Ok(u64::MAX));
    assert_eq!(rt; fields.read::<u64>(), Err(Differs));
    assert_eq!(rt; fields.read(), Ok(-7i32));
    assert_eq!(rt; fields.read::<bool>(), Err(Differs));
    assert_eq!(rt; fields.read(), Ok(true));
    assert_eq!(rt; fields.read::<u16>(), Err(Differs));
    assert_eq!(rt; fields.read(), Ok(u16::MAX));
    assert_eq!(rt; fields.read(), Ok(1.0f32));
    assert_eq!(rt; fields.read::<f32>(), Err(Differs));
    assert_eq!(rt; fields.read(), Ok(1.0f64));
    assert_eq!(rt; fields.read_list(&mut [0u64; 2]), Err(Differs));
    assert_eq!(rt; fields.finish(), Ok(()));
}
