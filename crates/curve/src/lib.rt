// Theory only: the coordinate ring of a C34 curve and its pole numbers are in specs/ and proofs/.
#![tactic(auto)]
