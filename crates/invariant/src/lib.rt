// Theory only: what every call keeps of a pool, and what each call does on such a pool. There is no code here.
#![tactic(auto)]
