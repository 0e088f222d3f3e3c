// No code: the definitions of the history and the theorem that a preprocessor outlives any restart are in specs/ and proofs/.
#![tactic(auto)]
