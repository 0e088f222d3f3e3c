// Replays data/vectors, the machine's own answers and the oracle's counts of digits (docs/VECTORS.md), on the functions of `numeric`, and prints for each function how many agree and how many differ.
// A line is a letter, a tab, 16 hexadecimal digits, a tab, 16 hexadecimal digits and an LF: the function, the argument's bits and the answer's.
#![tactic(auto)]

use reading::read_full;
use std::io::Read;
use std::str::FromStr;
use std::{fmt, fs};
use vectors_core::field::pattern;

const LINE: usize = 36;

// The functions, in the order of the report.
#[derive(Clone, Copy, Debug, PartialEq, Eq)]
enum Function {
    Sqrt,
    Narrow,
    Widen,
    WholeAsDouble,
    WholeAsSingle,
    DigitsOfSqrt,
}

const FUNCTIONS: [Function; 6] = [
    Function::Sqrt,
    Function::Narrow,
    Function::Widen,
    Function::WholeAsDouble,
    Function::WholeAsSingle,
    Function::DigitsOfSqrt,
];

// No function has this letter.
#[derive(Clone, Copy, Debug, PartialEq, Eq)]
struct NoFunction;

impl FromStr for Function {
    type Err = NoFunction;

    fn from_str(letter: &str) -> Result<Function, NoFunction> {
        match letter {
            "s" => Ok(Function::Sqrt),
            "n" => Ok(Function::Narrow),
            "w" => Ok(Function::Widen),
            "d" => Ok(Function::WholeAsDouble),
            "f" => Ok(Function::WholeAsSingle),
            "c" => Ok(Function::DigitsOfSqrt),
            _ => Err(NoFunction),
        }
    }
}

impl fmt::Display for Function {
    fn fmt<W: fmt::Write>(&self, f: &mut fmt::Formatter<W>) -> fmt::Result {
        f.write_str(match self {
            Function::Sqrt => "sqrt",
            Function::Narrow => "to_f32",
            Function::Widen => "to_f64",
            Function::WholeAsDouble => "u64_to_f64",
            Function::WholeAsSingle => "u64_to_f32",
            Function::DigitsOfSqrt => "digits of sqrt",
        })
    }
}

impl Function {
    fn answer(self, given: u64) -> u64 {
        match self {
            Function::Sqrt => numeric::double_bits(numeric::sqrt(numeric::double_of(given)).root),
            Function::Narrow => numeric::single_bits(numeric::to_f32(numeric::double_of(given))),
            Function::Widen => numeric::double_bits(numeric::to_f64(numeric::single_of(given))),
            Function::WholeAsDouble => numeric::double_bits(numeric::u64_to_f64(given)),
            Function::WholeAsSingle => numeric::single_bits(numeric::u64_to_f32(given)),
            Function::DigitsOfSqrt => numeric::sqrt(numeric::double_of(given)).digits,
        }
    }
}

#[derive(Clone, Copy)]
struct Case {
    function: Function,
    given: u64,
    wanted: u64,
}

// None where a line is not of its form.
fn parse(line: &[u8]) -> Option<Case> {
    let (letter, fields) = line.strip_suffix(b"\n")?.split_at_checked(1)?;
    let (given, wanted) = fields.strip_prefix(b"\t")?.split_at_checked(16)?;
    Some(Case {
        function: str::from_utf8(letter).ok()?.parse().ok()?,
        given: pattern(given, 16)?,
        wanted: pattern(wanted.strip_prefix(b"\t")?, 16)?,
    })
}

// How many lines of a function agree and how many differ.
#[derive(Clone, Copy, Default)]
struct Tally {
    agree: u64,
    differ: u64,
}

// The tally of each function, in the order of the report, and how many lines are not of their form.
#[derive(Clone, Copy, Default)]
struct Tallies {
    functions: [Tally; 6],
    broken: u64,
}

impl Tallies {
    fn count(&mut self, case: Case) {
        let tally = &mut self.functions[case.function as usize];
        if case.function.answer(case.given) == case.wanted {
            tally.agree = tally.agree.saturating_add(1);
        } else {
            tally.differ = tally.differ.saturating_add(1);
        }
    }

    fn count_broken(&mut self) {
        self.broken = self.broken.saturating_add(1);
    }

    fn report(&self, rt: &impl Print) {
        for (function, Tally { agree, differ }) in FUNCTIONS.iter().zip(&self.functions) {
            let _ = println!(rt; "{function}: agree {agree}, differ {differ}");
        }
        let broken = self.broken;
        let _ = println!(rt; "broken lines: {broken}");
    }
}

// Goes over the file by lines of 36 bytes, until there is none. What is left of a file that is cut is a broken line.
fn replay<F: Read>(file: &mut F) -> Tallies {
    let mut tallies = Tallies::default();
    for _ in 0..u64::MAX {
        let mut line = [0; LINE];
        let n = read_full(file, &mut line);
        if n == 0 {
            break;
        }
        match parse(&line[..n]) {
            Some(case) => tallies.count(case),
            None => tallies.count_broken(),
        }
    }
    tallies
}

fn main(rt: HostRuntime) {
    let path = "vectors";
    match fs::open(&rt, path) {
        Ok(mut file) => replay(&mut file).report(&rt),
        Err(e) => {
            let _ = eprintln!(rt; "{path}: {e}");
        }
    }
}
