// Theory only: an instance of what each theorem asks for, so that none is vacuous. There is no code here.
#![tactic(auto)]
