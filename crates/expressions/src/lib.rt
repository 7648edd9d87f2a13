// Theory only: expressions of the ring solver as elements of the coordinate ring, in proofs/.
#![tactic(auto)]
