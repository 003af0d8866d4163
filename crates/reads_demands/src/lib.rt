// The demands on the table's calls: theorems over the definitions that the calls are equal to, and no code.
#![tactic(auto)]
