// Theory only: what the counting program prints for each input is in specs/, that it is one text in proofs/.
#![tactic(auto)]
