// Round trips between reader and writer: theorems over their definitions, and no code.
#![tactic(auto)]
