// Theory only: the reference model, and that the pool answers as it does. There is no code here.
#![tactic(auto)]
