// Bytes, numbers of several bytes and counts of bits, for any input.
#![tactic(auto)]

pub mod count;
pub mod word;
