// The line with the length and the checksum of the text that the state is saved as.
use crate::replayed::Replayed;
use snapshot_save::save::save;
use vectors_core::fields::{Differs, Fields};

// Adler-32.
fn checksum(text: &[u8]) -> u64 {
    let mut a = 1u64;
    let mut b = 0u64;
    for byte in text {
        a = (a + u64::from(*byte)) % 65521;
        b = (b + a) % 65521;
    }
    b * 65536 + a
}

pub(crate) fn text_line(state: &Replayed, mut fields: Fields<'_>) -> Result<(), Differs> {
    let mut out = [0u8; 65536];
    let answer = save(state.head, state.lists(), &mut out);
    let n = answer.map_err(|_| Differs)?;
    let text = out.get(..n).ok_or(Differs)?;
    fields.expect(n as u64)?;
    fields.expect(checksum(text))?;
    fields.finish()
}
