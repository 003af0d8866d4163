// The capture format: line one, and packet lines.
#![tactic(auto)]

pub mod header;
pub mod packet_line;
