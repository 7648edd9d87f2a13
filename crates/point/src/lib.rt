// Theory only: the points of a curve and of a divisor are in specs/ and proofs/.
#![tactic(auto)]
