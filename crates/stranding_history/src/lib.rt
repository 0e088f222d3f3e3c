// No code: that the numbers of `stranding` are those of all lists of calls run on the history is stated in specs/ and proved in proofs/.
#![tactic(auto)]
