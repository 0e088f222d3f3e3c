// No code: document 01's samples, one example a row, and lists of calls of the unchanged Rust, computed from the definitions of crate restart and those below it (proofs/).
// They stand apart so that an edit of restart need not compute them.
#![tactic(auto)]
