// Decodes stored captures, each in blocks of the size that its frame names. A frame is the line `size=N block=B` and
// then N bytes, a capture; what a capture gives is followed by the line `--`.
#![tactic(auto)]

mod capture_run;
mod frame;
mod window;

use crate::window::{empty_window, take_turn};

// More than the longest frame.
pub(crate) const INPUT_ROOM: usize = 70000;

// PRINTED_EACH bytes for each byte of the longest block behind the longest line: what decode_block asks for.
const OUTPUT_ROOM: usize = 197200;

fn main() {
    let mut buf = [0u8; INPUT_ROOM];
    let mut out = [0u8; OUTPUT_ROOM];
    let mut w = empty_window();
    // Each turn runs a frame, so no input uses them up.
    for _ in 0..u64::MAX {
        let Some(next) = take_turn(w, &mut buf, &mut out) else {
            break;
        };
        w = next;
    }
}
