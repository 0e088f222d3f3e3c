// No code: inputs of the settling program with the oracle's answers, computed from the definition (proofs/). They stand apart so that an edit of settle_core need
// not compute them.
#![tactic(auto)]
