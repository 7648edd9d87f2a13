// Theory only: powers of ideals are in specs/ and proofs/.
#![tactic(auto)]
