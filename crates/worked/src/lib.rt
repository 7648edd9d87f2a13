// Theory only: the worked sums of document 01, the examples of document 02 and that they hold are in specs/ and proofs/.
#![tactic(auto)]
