// No code: the statement that a turned-back band stands the right way up, and its proof, are in specs/ and proofs/.
#![tactic(auto)]
