// Replays data/vectors, the oracle's numbers (docs/VECTORS.md), on `strandings`, and prints how many lines agree and how many differ.
// A line is six fields of 16 hexadecimal digits, a tab after each and an LF after the last: start, calls, row, waiting, drained, stranded.
// Its last line is wrong on purpose: a program that reports no difference compares nothing.
#![tactic(auto)]

use reading::read_full;
use std::fs;
use std::io::Read;
use stranding::{StrandingCounts, strandings};
use vectors_core::field::pattern;

const LINE: usize = 102;

// Whether a line's call answers as the line says; none where the line is not of its form. The wanted numbers of a refused call are 0.
fn agrees(line: &[u8]) -> Option<bool> {
    let mut numbers = line
        .strip_suffix(b"\n")?
        .split(|b| *b == b'\t')
        .map(|field| pattern(field, 16));
    let answer = strandings(numbers.next()??, numbers.next()??);
    let row = numbers.next()??;
    let wanted = StrandingCounts {
        waiting: numbers.next()??,
        drained: numbers.next()??,
        stranded: numbers.next()??,
    };
    if numbers.next().is_some() {
        return None;
    }
    Some(match answer {
        Ok(counts) => row == 0 && wanted == counts,
        Err(refusal) => row == u64::from(refusal) && wanted == NONE,
    })
}

const NONE: StrandingCounts = StrandingCounts {
    waiting: 0,
    drained: 0,
    stranded: 0,
};

#[derive(Clone, Copy, Default)]
struct Tally {
    agree: u64,
    differ: u64,
    broken: u64,
}

impl Tally {
    // One line more: whether it agrees, or none where it is not of its form.
    fn count(&mut self, agrees: Option<bool>) {
        match agrees {
            Some(true) => self.agree = self.agree.saturating_add(1),
            Some(false) => self.differ = self.differ.saturating_add(1),
            None => self.broken = self.broken.saturating_add(1),
        }
    }
}

// Goes over the file by lines of 102 bytes, until there is none. What is left of a file that is cut is a broken line.
fn replay<F: Read>(file: &mut F) -> Tally {
    let mut tally = Tally::default();
    for _ in 0..u64::MAX {
        let mut line = [0; LINE];
        let n = read_full(file, &mut line);
        if n == 0 {
            break;
        }
        tally.count(agrees(&line[..n]));
    }
    tally
}

fn report(rt: &impl Print, tally: Tally) {
    let agree = tally.agree;
    let differ = tally.differ;
    let broken = tally.broken;
    let _ = println!(rt; "strandings: agree {agree}, differ {differ}");
    let _ = println!(rt; "broken lines: {broken}");
}

fn main(rt: HostRuntime) {
    let path = "vectors";
    match fs::open(&rt, path) {
        Ok(mut file) => report(&rt, replay(&mut file)),
        Err(e) => {
            let _ = eprintln!(rt; "{path}: {e}");
        }
    }
}
