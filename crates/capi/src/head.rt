// The head in lent words: read, tested, and written.
ghost use Rattle.std.specs.Prelude.{◌≡◌, true, cond, map, ◌≤◌, length, IfOk};
ghost use Rattle.std.specs.Float.{binary32};
ghost use Rattle.std.specs.Float.Ieee.{to_bits};
ghost use Rattle.refusal.specs.Refusal.{row_of};
ghost use Rattle.refusal.specs.Lent.{over};
ghost use Rattle.snapshot.specs.Read.{all_codes};
ghost use Rattle.capi.specs.Calls.{open_row};
ghost use Rattle.capi.specs.Head.{single, codes_in, head_of, head_numbers, front_of, words_of, counts_over, form_row};
ghost use Rattle.capi.specs.Steps.Reading.{HeadRead};

use crate::codes::{codes_of, codes_row, write_codes};
use crate::words::{kind_row, method_of, mode_number, mode_of};
use refusal::Refusal;
use trcf::head::Preprocessor;
use trcf::transformer::WeightedTransformer;
use trcf_rows::rows::outside_row;

// How many words a head takes.
pub(crate) const HEAD_WORDS: usize = 44;

// Kept: (d) 44 or 16 words are lists with their length in a contract, here and below: `first_chunk` gives `&[u64; 16]` of a part in an Option, which would
// have to be opened by a test that cannot fail.
fn weights_of(words: &[u64]) -> [f32; 16]
    requires { length words.now ≡ 16 }
    ensures { result ≡ map single words.now }
{
    let mut a = [0.0f32; 16];
    for i in 0..16 {
        a[i] = numeric::single_of(words[i]);
    }
    a
}

fn head_of(words: &[u64]) -> Preprocessor
    requires in_bounds { 44 ≤ length words.now }
    requires words_value { all_codes (codes_in words.now) ≡ true }
    ensures { result ≡ head_of words.now }
{
    Preprocessor {
        transformer: WeightedTransformer {
            transform_method: method_of(words[1]),
            input_length: words[2] as usize,
            transform_decay: numeric::double_of(words[6]),
            weights: weights_of(&words[12..28]),
            count: words[10],
        },
        forest_mode: mode_of(words[0]),
        shingle_size: words[3] as usize,
        start_normalization: words[4] as usize,
        stop_normalization: words[5] as usize,
        weight_time: numeric::single_of(words[7]),
        values_seen: words[8] as usize,
        internal_timestamp: words[9] as usize,
        initial_len: words[11] as usize,
        codes: codes_of(&words[28..44]),
    }
}

// ---- the row of words

// What refuses before a head is made of the words: where the table says no they are not looked at.
fn closed_row(allowed: bool, words: &[u64]) -> Result<(), Refusal>
    ensures { row_of result ≡ cond allowed (form_row words.now) 22 }
{
    if !allowed {
        return Err(Refusal::Withheld);
    }
    if words.len() < HEAD_WORDS {
        return Err(Refusal::TooShort);
    }
    kind_row(words[0], words[1])?;
    codes_row(&words[28..44])
}

// Every export of a preprocessor begins here: `allowed` is what the table says of the role.
pub(crate) fn open_head(allowed: bool, words: &[u64]) -> Result<Preprocessor, Refusal>
    ensures row_value { row_of result ≡ open_row allowed words.now }
    ensures head_read { IfOk result (HeadRead words.now) }
{
    closed_row(allowed, words)?;
    let head = head_of(words);
    outside_row(head)?;
    Ok(head)
}

// ---- a head written

// The counters of a head.
pub(crate) fn write_counts(words: &mut [u64], head: Preprocessor)
    requires { 44 ≤ length words.old }
    ensures { words.new ≡ counts_over words.old head }
{
    words[8] = head.values_seen as u64;
    words[9] = head.internal_timestamp as u64;
    words[10] = head.transformer.count;
    words[11] = head.initial_len as u64;
}

fn write_weights(words: &mut [u64], weights: &[f32])
    requires words_len { length words.old ≡ 16 }
    requires weights_len { length weights.now ≡ 16 }
    ensures { words.new ≡ map (to_bits binary32) weights.now }
{
    for i in 0..16 {
        words[i] = numeric::single_bits(weights[i]);
    }
}

// The words before the weights.
fn write_numbers(words: &mut [u64], head: Preprocessor)
    requires { 44 ≤ length words.old }
    ensures { words.new ≡ over words.old (head_numbers head) }
{
    let t = head.transformer;
    words[0] = mode_number(head.forest_mode);
    words[1] = u64::from(t.transform_method);
    words[2] = t.input_length as u64;
    words[3] = head.shingle_size as u64;
    words[4] = head.start_normalization as u64;
    words[5] = head.stop_normalization as u64;
    words[6] = numeric::double_bits(t.transform_decay);
    words[7] = numeric::single_bits(head.weight_time);
    words[8] = head.values_seen as u64;
    words[9] = head.internal_timestamp as u64;
    words[10] = t.count;
    words[11] = head.initial_len as u64;
}

// The words before the codes.
fn write_front(words: &mut [u64], head: Preprocessor)
    requires { 44 ≤ length words.old }
    ensures { words.new ≡ over words.old (front_of head) }
{
    write_numbers(words, head);
    write_weights(&mut words[12..28], &head.transformer.weights);
}

// All of a head.
pub(crate) fn write_head(words: &mut [u64], head: Preprocessor)
    requires { 44 ≤ length words.old }
    ensures { words.new ≡ over words.old (words_of head) }
{
    write_front(words, head);
    write_codes(&mut words[28..44], head.codes);
}
