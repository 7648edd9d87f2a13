// Theory only: the field of p elements is in specs/.
#![tactic(auto)]
