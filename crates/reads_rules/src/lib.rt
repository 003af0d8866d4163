// The rules of one memory read: what open refuses of it, where its window lies, and which completions continue it.
#![tactic(auto)]

pub mod continuation;
pub mod origin;
pub mod piece;
pub mod read;
pub mod request;
pub mod validity;
pub mod window;
