// A text that was taken up: what it is saved as again, and what lies past the state.
use snapshot_save::save::save;
use trcf::head::{LentLists, Preprocessor};
use trcf::types::is_augmented;
use vectors_core::field::Lent;
use vectors_core::fields::{Differs, expect_untouched};
use vectors_core::memory::Memory;

// Room for the initial values of a state.
pub(crate) const INITIAL_VALUES: usize = 4000;

// The line of d zero codes.
fn expect_zero_codes(line: &[u8], d: usize) -> Result<(), Differs> {
    let codes = line
        .strip_prefix(b"chn")
        .and_then(|line| line.strip_suffix(b"\n"))
        .ok_or(Differs)?;
    let mut pairs = codes.chunks(2);
    if pairs.len() == d && pairs.all(|pair| matches!(pair, b"\t0")) {
        Ok(())
    } else {
        Err(Differs)
    }
}

// What was saved is the text, with the line of d zeros after its second where its third is none of codes.
fn expect_put_away(saved: &[u8], text: &[u8], d: usize) -> Result<(), Differs> {
    let behind = text.splitn(3, |b| *b == b'\n').nth(2).unwrap_or(&[]);
    if behind.starts_with(b"chn") {
        return if saved == text { Ok(()) } else { Err(Differs) };
    }
    let front = text.strip_suffix(behind).ok_or(Differs)?;
    let codes = saved
        .strip_prefix(front)
        .and_then(|rest| rest.strip_suffix(behind))
        .ok_or(Differs)?;
    expect_zero_codes(codes, d)
}

// The text is saved again as it was, with the line of its codes.
pub(crate) fn expect_saved(
    text: &[u8],
    head: Preprocessor,
    memory: &Memory<INITIAL_VALUES>,
    times: usize,
) -> Result<(), Differs> {
    let mut out = [0u8; 65536];
    let lists = LentLists {
        statistics: &memory.statistics,
        last_shingled_input: &memory.inputs,
        last_shingled_point: &memory.point,
        previous_timestamps: memory.times.get(..times).ok_or(Differs)?,
        initial_values: &memory.initial_values,
        initial_timestamps: &memory.initial_timestamps,
    };
    let n = save(head, lists, &mut out).map_err(|_| Differs)?;
    let saved = out.get(..n).ok_or(Differs)?;
    expect_put_away(saved, text, head.transformer.input_length)
}

// What lies past the first `n` is as it was before. No state is so large that its size is no number.
fn expect_rest<T: Lent>(xs: &[T], n: Option<usize>) -> Result<(), Differs> {
    let rest = xs.get(n.ok_or(Differs)?..).ok_or(Differs)?;
    expect_untouched(rest)
}

// What lies past the state is as it was before.
pub(crate) fn expect_rest_untouched(
    head: Preprocessor,
    memory: &Memory<INITIAL_VALUES>,
) -> Result<(), Differs> {
    let d = head.transformer.input_length;
    let k = head.shingle_size;
    let n = head.initial_len;
    let wide = d.checked_add(1).ok_or(Differs)?;
    let width = if is_augmented(head.forest_mode) {
        wide
    } else {
        d
    };
    expect_rest(&memory.statistics, wide.checked_mul(15))?;
    expect_rest(&memory.inputs, d.checked_mul(k))?;
    expect_rest(&memory.point, width.checked_mul(k))?;
    expect_rest(&memory.times, Some(k))?;
    expect_rest(&memory.initial_values, d.checked_mul(n))?;
    expect_rest(&memory.initial_timestamps, Some(n))
}
