// The codes of the channels: judged and read from words, written into words, and told in lent memory.
ghost use Rattle.std.specs.Prelude.{◌≡◌, true, length};
ghost use Rattle.refusal.specs.Refusal.{row_of};
ghost use Rattle.snapshot.specs.Read.{all_codes};
ghost use Rattle.capi.specs.Head.{codes_row};
ghost use Rattle.capi.specs.Calls.{list_got, list_told};

use refusal::Refusal;

// The largest code: 16 bits.
const CODE_MAX: u64 = 65535;

// Refused for a word that is no code: all are looked at, so that a compiler can look at several at once.
pub(crate) fn codes_row(words: &[u64]) -> Result<(), Refusal>
    ensures { row_of result ≡ codes_row words.now }
{
    let mut fit = true;
    for word in words {
        fit &= *word <= CODE_MAX;
    }
    if fit { Ok(()) } else { Err(Refusal::Form) }
}

// Kept: (d) 16 words are a list with its length in a contract, here and below, for head.rt's reason.
pub(crate) fn codes_of(words: &[u64]) -> [u16; 16]
    requires words_len { length words.now ≡ 16 }
    requires words_value { all_codes words.now ≡ true }
    ensures { result ≡ words.now }
{
    let mut a = [0u16; 16];
    for i in 0..16 {
        a[i] = words[i] as u16;
    }
    a
}

pub(crate) fn write_codes(words: &mut [u64], codes: [u16; 16])
    requires { length words.old ≡ 16 }
    ensures { words.new ≡ codes }
{
    for i in 0..16 {
        words[i] = u64::from(codes[i]);
    }
}

// The codes into lent memory, where they fit.
pub(crate) fn tell_codes(codes: &[u16], output: &mut [u16]) -> Result<(), Refusal>
    ensures { list_got (row_of result) output.new ≡ list_told codes.now output.old }
{
    if output.len() < codes.len() {
        return Err(Refusal::TooShort);
    }
    output[..codes.len()].copy_from_slice(codes);
    Ok(())
}
