// Theory only: ideals of type 61 are in proofs/.
#![tactic(auto)]
