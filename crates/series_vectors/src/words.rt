// The numbers of a data file: hexadecimal, of 1 to 16 lower-case digits, below 2^64, each ended by a blank or an LF. Lists are read into lent memory, so nothing is allocated.
ghost use Rattle.std.specs.Prelude.{◌<◌, IsSome};

use std::io::Read;

/// A kind of number that stands in a file.
pub(crate) trait Word: Copy {
    /// The number that a word stands for; a float's word has its bits.
    fn of(word: u64) -> Option<Self>;

    /// Its word.
    fn word(self) -> u64;
}

impl Word for u64 {
    fn of(word: u64) -> Option<u64> {
        Some(word)
    }

    fn word(self) -> u64 {
        self
    }
}

impl Word for u8 {
    fn of(word: u64) -> Option<u8> {
        u8::try_from(word).ok()
    }

    fn word(self) -> u64 {
        u64::from(self)
    }
}

impl Word for f32 {
    fn of(word: u64) -> Option<f32> {
        u32::try_from(word).ok()?;
        Some(numeric::single_of(word))
    }

    fn word(self) -> u64 {
        numeric::single_bits(self)
    }
}

const BLOCK: usize = 512;

/// The words of a file that are still to be read.
#[derive(Drop)]
pub(crate) struct Words<F> {
    file: F,
    // What was read of the file last; of its first `end` bytes those from `at` on are still to be taken.
    block: [u8; BLOCK],
    at: usize,
    end: usize,
}

// The value of a lower-case digit.
fn digit(b: u8) -> Option<u64> {
    match b {
        b'0'..=b'9' => Some(u64::from(b - b'0')),
        b'a'..=b'f' => Some(u64::from(b - b'a') + 10),
        _ => None,
    }
}

impl<F: Read> Words<F> {
    pub(crate) fn of_file(file: F) -> Words<F> {
        Words {
            file,
            block: [0; BLOCK],
            at: 0,
            end: 0,
        }
    }

    // The next byte, which stays the next one; none where the file has ended. A failed read ends the file.
    fn peek(&mut self) -> Option<u8>
        ensures { IsSome result → self.new.at < 512 }
    {
        if self.at >= self.end {
            self.end = self.file.read(&mut self.block).unwrap_or(0);
            self.at = 0;
        }
        if self.at < self.end {
            self.block.get(self.at).copied()
        } else {
            None
        }
    }

    /// Whether the file has ended.
    pub(crate) fn is_at_end(&mut self) -> bool {
        self.peek().is_none()
    }

    fn byte(&mut self) -> Option<u8> {
        let byte = self.peek()?;
        self.at += 1;
        Some(byte)
    }

    // A word that is not of the form ends behind the byte that breaks it, the 17th digit too.
    fn word(&mut self) -> Option<u64> {
        let mut word = 0;
        for digits in 0..17 {
            match self.byte()? {
                b' ' | b'\n' if digits == 0 => return None,
                b' ' | b'\n' => return Some(word),
                b => word = (word << 4) | digit(b)?,
            }
        }
        None
    }

    pub(crate) fn next<T: Word>(&mut self) -> Option<T> {
        T::of(self.word()?)
    }

    // The front of a room, of the length that stands in the file; none where the room is shorter.
    fn front<'r, T>(&mut self, room: &'r mut [T]) -> Option<&'r mut [T]> {
        let n = usize::try_from(self.word()?).ok()?;
        room.get_mut(..n)
    }

    /// A list, in the front of a room: its length, and its numbers.
    pub(crate) fn list<'r, T: Word>(&mut self, room: &'r mut [T]) -> Option<&'r mut [T]> {
        let list = self.front(room)?;
        for x in list.iter_mut() {
            *x = self.next()?;
        }
        Some(list)
    }

    /// Memory to be lent, which holds `mark`: the front of a room, of the length that stands in the file.
    pub(crate) fn lent<'r, T: Word>(&mut self, room: &'r mut [T], mark: T) -> Option<&'r mut [T]> {
        let memory = self.front(room)?;
        for x in memory.iter_mut() {
            *x = mark;
        }
        Some(memory)
    }

    /// Whether the next words are those of the list's first `n` numbers, and whether the list holds `mark` past them. Every word is read.
    pub(crate) fn hold<T: Word>(&mut self, list: &[T], n: usize, mark: T) -> bool {
        let mut same = true;
        for x in list.iter().take(n) {
            same &= self.word() == Some(x.word());
        }
        same && list.iter().skip(n).all(|x| x.word() == mark.word())
    }

    /// Goes over the cases until the file ends or one cannot be read: nobody knows where the next one begins.
    pub(crate) fn replay<C: FnMut(&mut Words<F>) -> Option<bool>>(&mut self, mut agrees: C) -> Tally
        requires { C.IsAlwaysCallable agrees }
    {
        let mut tally = Tally::default();
        for _ in 0..u64::MAX {
            if self.is_at_end() {
                break;
            }
            let agreed = agrees(self);
            tally.count(agreed);
            if agreed.is_none() {
                break;
            }
        }
        tally
    }
}

/// How many cases agree, how many differ, and how many cannot be read.
#[derive(Clone, Copy, Default)]
pub(crate) struct Tally {
    pub(crate) agree: u64,
    pub(crate) differ: u64,
    pub(crate) broken: u64,
}

impl Tally {
    /// One case more: whether it agrees, or none where it cannot be read.
    pub(crate) fn count(&mut self, agrees: Option<bool>) {
        match agrees {
            Some(true) => self.agree = self.agree.saturating_add(1),
            Some(false) => self.differ = self.differ.saturating_add(1),
            None => self.broken = self.broken.saturating_add(1),
        }
    }
}
