// Theory only: what lists of reads observe of a pool, and that two pools save the same image exactly when it is the same. There is no code here.
#![tactic(auto)]
