// Theory only: ideals of a ring with pole numbers are in specs/ and proofs/.
#![tactic(auto)]
