// A tag's record: from the set of open tags and the words of their reads, put back, and scans over all tags below a
// limit.
#![tactic(auto)]

pub mod open_tags;
pub mod record;
