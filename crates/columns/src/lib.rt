// Theory only: columns of two records of kind 31, in proofs/.
#![tactic(auto)]
