// Request #110: how many of the lists of some number of calls leave the initial values waiting, drained or stranded. It knows no preprocessor:
// the crate stranding_history proves that the numbers are those of the history.
#![tactic(auto)]

ghost use Rattle.std.specs.Prelude.{◌≡◌, ◌≤◌};
ghost use Rattle.stranding.specs.Counts.{out_of_range, answer_of, strandings_of};
ghost use Rattle.stranding.specs.Steps.Table.{Small, Swept};

use refusal::Refusal;

// How many lists leave the initial values waiting, drained and stranded.
#[derive(Clone, Copy, Debug, PartialEq, Eq)]
pub struct StrandingCounts {
    pub waiting: u64,
    pub drained: u64,
    pub stranded: u64,
}

fn out_of_range(n: u64) -> bool
    ensures { result ≡ out_of_range n }
{
    n < 1 || 20 < n
}

// One call more in front, where fewer than start initial values wait: two of the three calls add none, and one adds one.
fn sweep(table: &mut [u64; 21], start: usize)
    requires start_bound { start ≤ 20 }
    requires small { Small start table.old }
    ensures { Swept start table.old table.new }
{
    for j in 0..start {
        table[j] = 2 * table[j] + table[j + 1];
    }
}

// table[j] is the number of lists of so many calls that strand j initial values, and orders is the number of all lists. What ends the waiting
// is one of three calls, of which two drain and one strands: so twice as many lists drain as strand, and one table is enough.
pub fn strandings(start: u64, calls: u64) -> Result<StrandingCounts, Refusal>
    ensures { answer_of result ≡ strandings_of start calls }
{
    if out_of_range(start) || out_of_range(calls) {
        return Err(Refusal::StrandingsRange);
    }
    let s = start as usize;
    let mut table = [0u64; 21];
    let mut orders: u64 = 1;
    for i in 0..calls {
        sweep(&mut table, s);
        table[s] = orders;
        orders = 3 * orders;
    }
    let stranded = table[0];
    Ok(StrandingCounts {
        waiting: orders - 3 * stranded,
        drained: 2 * stranded,
        stranded,
    })
}
