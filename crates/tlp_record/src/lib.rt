// The packet record: a packet as 48 bytes, and back. What it is stands in specs/; crate tlp_record_read lays it, crate
// tlp_record_write reads it.
#![tactic(auto)]

pub mod places;
