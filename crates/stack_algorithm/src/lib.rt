// Theory only: marking a graph with a stack that has no limit (Kurokawa's Algorithm 2). There is no code here.
#![tactic(auto)]
