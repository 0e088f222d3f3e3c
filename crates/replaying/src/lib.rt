// Replays a file of inputs and outputs on a program, and says how many outputs agree. Each input of the file has a line with the lengths of input and output
// in decimal, parted by a blank, and then both. It uses nothing of the port.
#![tactic(auto)]

ghost use Rattle.std.specs.Prelude.{◌≡◌, ◌≤◌, ◌<◌, IfSome, length};

use reading::room;
use std::rt::Files;
use vectors_core::tally::read_file;

// Where an input of a text stands: its bytes at from..middle, and its output's at middle..next.
#[derive(Clone, Copy)]
struct Case {
    from: usize,
    middle: usize,
    next: usize,
}

// A decimal number, and the byte after the one that ends it.
#[derive(Clone, Copy)]
struct Length {
    value: usize,
    next: usize,
}

// What stands for a length that the text ends before: 0, with the text's first byte behind it.
const CUT: Length = Length { value: 0, next: 0 };

// The digits from `at` on, and the byte that ends them: the last seven of a longer number. None where the text ends with them.
fn length_at(text: &[u8], at: usize) -> Option<Length>
    requires { at ≤ length text.now }
    ensures { IfSome result (λ found. (found.value ≤ 9999999) × (at < found.next) × (found.next ≤ length text.now)) }
{
    let mut value = 0usize;
    for i in at..text.len() {
        match text[i] {
            b'0'..=b'9' => value = value % 1000000 * 10 + (text[i] - b'0') as usize,
            _ => return Some(Length { value, next: i + 1 }),
        }
    }
    None
}

// The input whose line stands from `at` on. None where the text ends before it does, or where a length that is cut leaves it no place behind `at`.
fn case_at(text: &[u8], at: usize) -> Option<Case>
    requires { at ≤ length text.now }
    ensures { IfSome result (λ case. (case.from ≤ case.middle) × (case.middle ≤ case.next) × (case.next ≤ length text.now) × (at < case.next)) }
{
    let input = length_at(text, at).unwrap_or(CUT);
    let output = length_at(text, input.next).unwrap_or(CUT);
    let from = output.next;
    if text.len() - from < input.value {
        return None;
    }
    let middle = from + input.value;
    if text.len() - middle < output.value {
        return None;
    }
    let next = middle + output.value;
    if next <= at {
        return None;
    }
    Some(Case { from, middle, next })
}

// How many inputs agree and how many do not.
#[derive(Clone, Copy)]
struct Tally {
    agree: u64,
    differ: u64,
}

impl Tally {
    fn count(&mut self, agrees: bool) {
        if agrees {
            self.agree = self.agree.saturating_add(1);
        } else {
            self.differ = self.differ.saturating_add(1);
        }
    }
}

// Every input of the text, in order. What is left of a text that is cut counts as one that differs.
fn replay<F: FnMut(&[u8], &[u8]) -> bool>(text: &[u8], mut agrees: F) -> Tally
    requires { F.IsAlwaysCallable agrees }
{
    let mut tally = Tally {
        agree: 0,
        differ: 0,
    };
    let mut at = 0;
    while at < text.len() {
        let Some(case) = case_at(text, at) else {
            tally.count(false);
            return tally;
        };
        tally.count(agrees(&text[case.from..case.middle], &text[case.middle..case.next]));
        at = case.next;
    }
    tally
}

/// Replays a file, and prints its name and both numbers. A file that is not there is told and counts as empty, and what is behind the room for a file is not read.
pub fn replay_file<F: FnMut(&[u8], &[u8]) -> bool>(
    rt: &(impl Files + Print + Eprint),
    name: &str,
    agrees: F,
)
    requires { F.IsAlwaysCallable agrees }
{
    let mut text = room();
    let n = read_file(rt, name, &mut text);
    let tally = replay(&text[..n], agrees);
    let agree = tally.agree;
    let differ = tally.differ;
    let _ = println!(rt; "{name}: agree {agree}, differ {differ}");
}
