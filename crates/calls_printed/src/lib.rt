// The calls of a table and what is printed of them, for the console.
// A function that prints states all but what it prints: no contract can say that.
#![tactic(auto)]

pub mod checksum;
mod line;
pub mod print;
pub mod table;

// The most bytes of a line with its newline.
pub const LINE_MOST: usize = 8300;
