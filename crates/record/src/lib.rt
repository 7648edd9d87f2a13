// Theory only: what is accepted, what is refused and by which number is in specs/.
#![tactic(auto)]
