// The part of the input that is in the buffer.
ghost use Rattle.std.specs.Prelude.{◌≡◌, ◌≤◌, length};
ghost use Rattle.capture_vectors.specs.Inner.Sizes.{input_room, output_room};

use crate::INPUT_ROOM;
use crate::frame::{FRAME_MOST, run_frame};
use text::buffer::move_to_front;

// What is still to run stands from index at up to index end.
#[derive(Clone, Copy)]
pub(crate) struct Window {
    pub at: usize,
    pub end: usize,
    ghost ordered: { at ≤ end },
    ghost end_in: { end ≤ input_room },
}

pub(crate) fn empty_window() -> Window
    ensures { (result.at ≡ 0) × (result.end ≡ 0) }
{
    Window { at: 0, end: 0 }
}

// Fills the buffer, unless it holds a whole frame already, so that not every frame moves what follows it.
fn refill(w: Window, buf: &mut [u8; INPUT_ROOM]) -> Window {
    let kept = w.end - w.at;
    if FRAME_MOST <= kept {
        return w;
    }
    move_to_front(buf, w.at, w.end);
    let got = io::read_full(0, &mut buf[kept..]);
    Window {
        at: 0,
        end: kept + got,
    }
}

// Runs one frame; none where there is no other.
pub(crate) fn take_turn(
    before: Window,
    buf: &mut [u8; INPUT_ROOM],
    out: &mut [u8],
) -> Option<Window>
    requires { length out.old ≡ output_room }
{
    let w = refill(before, buf);
    let used = run_frame(&buf[w.at..w.end], out)?;
    Some(Window {
        at: w.at + used,
        end: w.end,
    })
}
