// Transaction-layer packets: what a packet is, and the rules that reader and writer share.
#![tactic(auto)]

pub mod content;
pub mod packet;
pub mod packet_type;
pub mod refusal;
pub mod settings;
pub mod size;
