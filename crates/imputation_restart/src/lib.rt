// No code: that a list of calls whose learns are fed with filled readings outlives a restart is stated in specs/ and proved in proofs/.
#![tactic(auto)]
