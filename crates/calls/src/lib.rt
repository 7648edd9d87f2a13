// Theory only: what each call returns and leaves is in specs/, adding by pairs in specs/ and proofs/.
#![tactic(auto)]
