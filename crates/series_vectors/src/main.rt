// Replays answers that the oracle worked out from the requests' words (docs/VECTORS.md) on `series`, and prints how many agree and how many differ.
// The last line of a file is wrong by purpose: the one that differs.
#![tactic(auto)]

mod alignment;
mod imputation;
mod words;

use std::fs;
use std::fs::File;
use std::rt::Files;
use words::{Tally, Words};

fn report(rt: &impl Print, name: &str, tally: Tally) {
    let agree = tally.agree;
    let differ = tally.differ;
    let broken = tally.broken;
    let _ = println!(rt;
        "{name}: agree {agree}, differ {differ} (the wrong line), broken {broken}"
    );
}

fn replay<T: FnOnce(&mut Words<File>) -> Tally>(
    rt: &(impl Files<File = File> + Print + Eprint),
    name: &str,
    tally: T,
)
    requires { T.IsAlwaysCallable tally }
{
    match fs::open(rt, name) {
        Ok(file) => report(rt, name, tally(&mut Words::of_file(file))),
        Err(e) => {
            let _ = eprintln!(rt; "{name}: {e}");
        }
    }
}

fn main(rt: HostRuntime) {
    replay(&rt, "alignment", alignment::replay);
    replay(&rt, "imputation", imputation::replay);
}
