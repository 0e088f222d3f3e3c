// A buffer filled from a file or from the standard input. It uses nothing of the port.
#![tactic(auto)]

ghost use Rattle.std.specs.Io.KnownBytes.{Consumes};
ghost use Rattle.std.specs.Prelude.{◌≡◌, ◌≤◌, length, take};

use std::io::Read;

/// Room for a file, or for what a program prints. A function of its own, so that proofs need not count its bytes: of such an array in place the check runs out of stack.
pub fn room() -> [u8; 524288]
    ensures { 524288 ≡ length result }
{
    [0; 524288]
}

// Kept: (a) a loop of reads. `read_to_end` wants memory of its own, of which the settling program has none, and `read_exact` answers no count where the input is shorter than the buffer.
/// Reads until `text` is full, the input ends or a read fails, and answers how many bytes stand at the front of `text`: those are the next ones of the input, and no other byte of it is
/// lost. A failed read ends the input.
pub fn read_full<R: Read>(input: &mut R, text: &mut [u8]) -> usize
    ensures within { result ≤ length text.new }
    ensures bytes { Consumes (R.remaining input.old) (R.remaining input.new) (take result text.new) }
{
    let mut done = 0;
    while done < text.len() {
        match input.read(&mut text[done..]) {
            Ok(n) if n > 0 => done += n,
            _ => return done,
        }
    }
    done
}
