// How many lines of a file agree, and the report.
ghost use Rattle.std.specs.Prelude.{if◌then◌else◌, ◌≡◌, ◌≤◌, ◌||◌, ◌++◌, ◌∷◌, [], leb, length, slice_set, take};
ghost use Rattle.vectors_core.specs.Tally.{one_more};

use crate::fields::Differs;
use reading::{read_full, room};
use std::fs;
use std::rt::Files;

/// A line that differs: its number, from 1 on, and its letter, which may be any byte.
#[derive(Clone, Copy, Debug, PartialEq, Eq)]
pub struct Named {
    pub number: u64,
    pub letter: u8,
}

// How many of the lines that differ are named.
const NAMED: usize = 5;

/// How many lines agree with the Rust and how many do not, and the first of these.
#[derive(Clone, Copy)]
pub struct Tally {
    pub agree: u64,
    pub differ: u64,
    // The lines that are named stand at the front, as many as differ or all.
    // Kept: (a) an array, since a count must not fail, and a `push` to a Vec may.
    pub named: [Named; NAMED],
}

impl Tally {
    pub fn new() -> Tally
        ensures { (result.agree ≡ 0) × (result.differ ≡ 0) × (take result.differ result.named ≡ []) }
    {
        Tally {
            agree: 0,
            differ: 0,
            named: [Named {
                number: 0,
                letter: 0,
            }; NAMED],
        }
    }

    /// One line more.
    pub fn count(&mut self, line: Named, agrees: bool)
        ensures agree { self.new.agree ≡ (if agrees then one_more self.old.agree else self.old.agree) }
        ensures differ { self.new.differ ≡ (if agrees then self.old.differ else one_more self.old.differ) }
        ensures named { take self.new.differ self.new.named ≡
            (if agrees || leb 5 self.old.differ then take self.old.differ self.old.named else take self.old.differ self.old.named ++ line ∷ []) }
        ensures whole { self.new.named ≡ (if agrees then self.old.named else slice_set self.old.named self.old.differ line) }
    {
        if agrees {
            self.agree = self.agree.saturating_add(1);
            return;
        }
        if self.differ < NAMED as u64 {
            self.named[self.differ as usize] = line;
        }
        self.differ = self.differ.saturating_add(1);
    }

    /// The first lines that differ, and then a line with the file's name and both numbers.
    pub fn report(&self, rt: &impl Print, name: &str)
        ensures { result ≡ tt }
    {
        for line in self.named.iter().take(self.differ as usize) {
            let number = line.number;
            let _ = print!(rt; "differs: line {number}");
            let _ = rt.write_all(&[b' ', line.letter, b'\n']);
        }
        let agree = self.agree;
        let differ = self.differ;
        let _ = println!(rt; "{name}: agree {agree}, differ {differ}");
    }
}

/// Reads a file to the front of `text`, as much as there is room for, and answers how much that is. A file that is not there is told on standard error and counts as empty, and a failed
/// read ends the file.
pub fn read_file(rt: &(impl Files + Eprint), name: &str, text: &mut [u8]) -> usize
    ensures { result ≤ length text.new }
{
    match fs::open(rt, name) {
        Ok(mut file) => read_full(&mut file, text),
        Err(e) => {
            let _ = eprintln!(rt; "{name}: {e}");
            0
        }
    }
}

/// Replays each line of a file, in order, and prints the first that differ and how many agree. What is behind the room for a file is not read. A line that cannot be written is passed over.
pub fn replay<F: FnMut(&[u8]) -> Result<(), Differs>>(
    rt: &(impl Files + Print + Eprint),
    name: &str,
    mut answer: F,
)
    requires { F.IsAlwaysCallable answer }
{
    let mut text = room();
    let n = read_file(rt, name, &mut text);
    let mut tally = Tally::new();
    for (i, line) in text[..n].split_inclusive(|b| *b == b'\n').enumerate() {
        let named = Named {
            number: i as u64 + 1,
            letter: line[0],
        };
        tally.count(named, answer(line).is_ok());
    }
    tally.report(rt, name);
}
