// Replays calls of `align`: d, tolerance, the two lists (cells, times), the outputs' lengths; then the row, the number of pairs, the positions and the sizes.
use crate::words::{Tally, Words};
use series::alignment::align;
use std::io::Read;

// What the outputs hold before a call, and must hold past the answer after it.
const MARK: u64 = 0x5a5a;

const MARK32: f32 = 7.5;

// The most pairs that a case may give, and the most channels that a list of sizes has.
const PAIRS: u64 = 4096;

const CHANNELS: u64 = 16;

// Room for the lists of a case. Kept: (a) arrays, as long as a case may ask for, since a Vec may run out of memory.
#[derive(Drop)]
struct Room {
    left: [f32; 65600],
    left_times: [u64; 4100],
    right: [f32; 65600],
    right_times: [u64; 4100],
    left_out: [u64; 4100],
    right_out: [u64; 4100],
    gaps_out: [f32; 20],
}

impl Room {
    // Whether a case's call answers as the file says.
    fn agrees<F: Read>(&mut self, words: &mut Words<F>) -> Option<bool> {
        let d = words.next()?;
        let tolerance = words.next()?;
        let left = words.list(&mut self.left)?;
        let left_times = words.list(&mut self.left_times)?;
        let right = words.list(&mut self.right)?;
        let right_times = words.list(&mut self.right_times)?;
        let left_out = words.lent(&mut self.left_out, MARK)?;
        let right_out = words.lent(&mut self.right_out, MARK)?;
        let gaps_out = words.lent(&mut self.gaps_out, MARK32)?;
        let answer = align(
            d,
            left,
            left_times,
            right,
            right_times,
            tolerance,
            left_out,
            right_out,
            gaps_out,
        );
        let row = words.next::<u64>()?;
        let pairs = words.next::<u64>()?;
        if pairs > PAIRS {
            return None;
        }
        let told = match answer {
            Ok(number) => row == 0 && pairs == number,
            Err(refusal) => row == u64::from(refusal) && pairs == 0,
        };
        let sizes = if row == 0 && d <= CHANNELS { d } else { 0 };
        let lefts = words.hold(left_out, pairs as usize, MARK);
        let rights = words.hold(right_out, pairs as usize, MARK);
        let gaps = words.hold(gaps_out, sizes as usize, MARK32);
        Some(told && lefts && rights && gaps)
    }
}

pub(crate) fn replay<F: Read>(words: &mut Words<F>) -> Tally {
    let mut room = Room {
        left: [0.0; 65600],
        left_times: [0; 4100],
        right: [0.0; 65600],
        right_times: [0; 4100],
        left_out: [0; 4100],
        right_out: [0; 4100],
        gaps_out: [0.0; 20],
    };
    words.replay(|words| room.agrees(words))
}
