// Scans over the elements of a list of any length; what is here is definitions and laws.
#![tactic(auto)]
