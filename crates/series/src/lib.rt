// Theory only: power series over a commutative ring are in specs/ and proofs/.
#![tactic(auto)]
