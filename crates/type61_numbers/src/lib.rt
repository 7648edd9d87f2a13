// Theory only: the numbers of the reduced ideal of an ideal of type 61, in proofs/.
#![tactic(auto)]
