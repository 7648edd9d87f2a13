// Theory only: short records, and the calls that move a record to the short form and back, are in specs/ and proofs/.
#![tactic(auto)]
