// A frame at the front of the input.
ghost use Rattle.std.specs.Prelude.{◌≤◌, length, IfSome};
ghost use Rattle.capture_vectors.specs.Inner.Sizes.{input_room};

use crate::capture_run::run_capture;
use text::fields::decimal_after;
use text::lines::line_end;

// The first line has at most 30 bytes and the capture at most 60,000.
pub(crate) const FRAME_MOST: usize = 60030;

// Where the capture stands, and the size of its blocks.
#[derive(Clone, Copy)]
struct Frame {
    from: usize,
    to: usize,
    block: usize,
}

fn frame_at(input: &[u8]) -> Option<Frame>
    ensures { IfSome result (λ f. (f.from ≤ f.to) × (f.to ≤ length input.now) × (1 ≤ f.block)) }
{
    let end = line_end(input, 0);
    let line = &input[..end];
    let size = decimal_after(line, 0, b"size=", 60000)?;
    let block = decimal_after(line, size.next, b" block=", 16384)?;
    let count = size.value as usize;
    if block.next != end || block.value == 0 || input.len() - end <= count {
        return None;
    }
    let from = end + 1;
    Some(Frame {
        from,
        to: from + count,
        block: block.value as usize,
    })
}

// Runs the frame and answers how many bytes it has: none at the end of the input, and where there is no frame.
pub(crate) fn run_frame(input: &[u8], out: &mut [u8]) -> Option<usize>
    requires { length input.now ≤ input_room }
    ensures { IfSome result (λ n. n ≤ length input.now) }
{
    if input.is_empty() {
        return None;
    }
    let Some(f) = frame_at(input) else {
        io::write_all(1, b"bad frame\n");
        return None;
    };
    run_capture(&input[f.from..f.to], f.block, out);
    io::write_all(1, b"--\n");
    Some(f.to)
}
