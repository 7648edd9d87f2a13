// Theory only: polynomials in x and y, the coordinate ring as a quotient of them, and nonsingular curves are in specs/ and proofs/.
#![tactic(auto)]
