// Theory only: no operation changes the words behind the cells of a pool, and nothing that it answers or leaves depends on them. There is no code here.
#![tactic(auto)]
