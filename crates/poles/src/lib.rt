// Theory only: the pole numbers of the coordinate ring are in specs/ and proofs/.
#![tactic(auto)]
