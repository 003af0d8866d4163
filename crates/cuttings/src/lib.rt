// Lawful cuttings of a read: definitions and theorems, and no code.
#![tactic(auto)]
