// Lines named by two letters, in the fields of a snapshot: what a program prints beside it.
ghost use Rattle.std.specs.Prelude.{◌≡◌, [], ◌∷◌, ◌+◌, ◌≤◌, length, is_some, unwrap_or};
ghost use Rattle.std.specs.Float.{nan};
ghost use Rattle.snapshot.specs.Text.{whole, named, singles};
ghost use Rattle.snapshot.specs.Read.{bytes_of_line};
ghost use Rattle.snapshot.specs.Save.{saved_told, fitted};
ghost use Rattle.snapshot.specs.Steps.Write.{Wrote};
ghost use Rattle.snapshot_save.specs.Line.{text_within, optional_field, optional_line};

use crate::write::{tab, tabs, whole_length, write_byte};
use refusal::Refusal;

// A line of f32, and its length; or TooShort with nothing written, where out is shorter than the line.
pub fn singles_line(out: &mut [u8], a: u8, b: u8, v: &[f32]) -> Result<usize, Refusal>
    ensures { saved_told result out.new ≡ fitted (bytes_of_line (singles (a ∷ b ∷ []) v.now)) out.old }
{
    let n = out.len();
    if n < 3 || (n - 3) / 9 < v.len() {
        return Err(Refusal::TooShort);
    }
    let p = write_byte(out, 0, a);
    let q = write_byte(out, p, b);
    let r = tabs(out, q, v);
    let e = write_byte(out, r, 10);
    Ok(e)
}

// A line of one whole number, in the same way.
pub fn whole_line(out: &mut [u8], a: u8, b: u8, n: u64) -> Result<usize, Refusal>
    ensures { saved_told result out.new ≡ fitted (bytes_of_line (named (a ∷ b ∷ []) (whole n ∷ []))) out.old }
{
    let l = whole_length(n);
    if out.len() < l + 4 {
        return Err(Refusal::TooShort);
    }
    let p = write_byte(out, 0, a);
    let q = write_byte(out, p, b);
    let r = tab(out, q, n);
    let e = write_byte(out, r, 10);
    Ok(e)
}

// An f32 after its tab, or `-` where there is none.
fn tab_optional(out: &mut [u8], at: usize, x: Option<f32>) -> usize
    requires { at + 9 ≤ length out.old }
    ensures { Wrote at (9 ∷ optional_field (is_some x) (unwrap_or x nan)) out.old result out.new }
{
    let Some(x) = x else {
        let p = write_byte(out, at, 9);
        return write_byte(out, p, 45);
    };
    tab(out, at, x)
}

// A line of a whole number and an f32, or `-` where there is none, named by one letter; TooShort with nothing written, where out has less than 32 bytes.
pub fn optional_line(out: &mut [u8], a: u8, n: u64, x: Option<f32>) -> Result<usize, Refusal>
    ensures { saved_told result out.new ≡ text_within 32 (bytes_of_line (optional_line a n (is_some x) (unwrap_or x nan))) out.old }
{
    if out.len() < 32 {
        return Err(Refusal::TooShort);
    }
    let p = write_byte(out, 0, a);
    let q = tab(out, p, n);
    let r = tab_optional(out, q, x);
    let e = write_byte(out, r, 10);
    Ok(e)
}
