// Theory only: polynomials in one and two variables are in specs/ and proofs/.
#![tactic(auto)]
