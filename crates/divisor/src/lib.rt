// Theory only: the kinds of divisor records and their ideals are in specs/ and proofs/.
#![tactic(auto)]
