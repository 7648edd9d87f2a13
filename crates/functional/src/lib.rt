// Theory only: linear functionals on the coordinate ring and the colon ideals they tell are in specs/ and proofs/.
#![tactic(auto)]
