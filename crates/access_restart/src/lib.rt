// No code: demand 3 for lists of calls with their roles, and its proof, are in specs/ and proofs/.
#![tactic(auto)]
