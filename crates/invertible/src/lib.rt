// Theory only: the ideals of records on a nonsingular curve are invertible; see specs/ and proofs/.
#![tactic(auto)]
