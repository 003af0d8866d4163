// Numbers and words in lines of text, parsed and printed, for any input.
#![tactic(auto)]

pub mod buffer;
pub mod decimal;
pub mod fields;
pub mod hex;
pub mod lines;
pub mod number;
pub mod output;
pub mod words;
