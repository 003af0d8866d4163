// What a table keeps: a bit for each tag that is open, and four words for each tag's read.
#![tactic(auto)]

pub mod tag_set;
pub mod words;

// The tags that there is room for are those below. A tag over it is in no set and has no words: putting it changes
// nothing.
pub const CAPACITY: usize = 256;
