// The calls on a lent table are the core's: theorems over what their contracts state, and no code.
#![tactic(auto)]
