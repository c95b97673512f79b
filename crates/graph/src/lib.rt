// Theory only: reachability and the depth-first preorder of a graph of cells with two links each. There is no code here.
#![tactic(auto)]
