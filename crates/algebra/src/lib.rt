// Theory only: commutative rings, fields and the ring solver are in specs/ and proofs/.
#![tactic(auto)]
