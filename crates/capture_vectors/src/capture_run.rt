// One capture, fed in blocks.
ghost use Rattle.std.specs.Prelude.{◌≡◌, ◌+◌, ◌≤◌, length};
ghost use Rattle.capture_vectors.specs.Inner.Sizes.{input_room};

use capture_blocks::{Progress, Step, decode_block, decode_end, put_totals_of};
use text::words::part;

// How far the capture is decoded: the bytes that the steps have used, and the lines in them.
#[derive(Clone, Copy)]
struct Run {
    progress: Progress,
    used: usize,
    lines: usize,
    refused: usize,
    ghost used_in: { used ≤ input_room },
    ghost lines_in: { lines ≤ used },
    ghost refused_in: { refused ≤ lines },
}

fn first_run() -> Run
    ensures { result.used ≡ 0 }
{
    Run {
        progress: Progress::First,
        used: 0,
        lines: 0,
        refused: 0,
    }
}

// Writes the first n bytes of out.
fn print(out: &[u8], n: usize) {
    io::write_all(1, part(out, 0, n));
}

fn advanced(run: Run, step: Step) -> Run
    requires used { run.used + step.used ≤ input_room }
    requires lines { step.lines ≤ step.used }
    requires refused { step.refused ≤ step.lines }
    ensures { result.used ≡ run.used + step.used }
{
    Run {
        progress: step.progress,
        used: run.used + step.used,
        lines: run.lines + step.lines,
        refused: run.refused + step.refused,
    }
}

// Decodes what the steps before left, with a block behind it.
fn take_step(run: Run, bytes: &[u8], out: &mut [u8]) -> Run
    requires { run.used + length bytes.now ≤ input_room }
    ensures { result.used ≤ run.used + length bytes.now }
{
    match decode_block(run.progress, bytes, out) {
        // Never with these sizes: out has room for the longest block behind the longest line.
        Err(_) => run,
        Ok(step) => {
            print(out, step.written);
            advanced(run, step)
        }
    }
}

// Each block reaches so many bytes further, up to index seen; a step is given all that was not used before it.
fn feed(capture: &[u8], block: usize, out: &mut [u8]) -> Run
    requires { (length capture.now ≤ input_room) × (1 ≤ block) }
{
    let mut run = first_run();
    let mut seen: usize = 0;
    for chunk in capture.chunks(block) {
        seen += chunk.len();
        run = take_step(run, &capture[run.used..seen], out);
    }
    run
}

// Prints what the capture's last bytes give, and the totals.
fn finish(run: Run, rest: &[u8], out: &mut [u8]) {
    match decode_end(run.progress, rest, out) {
        // Never with this size of out.
        Err(_) => {}
        Ok(step) => {
            let written = put_totals_of(
                run.progress,
                (run.lines + step.lines) as u64,
                (run.refused + step.refused) as u64,
                step.written,
                out,
            );
            print(out, written);
        }
    }
}

// Decodes a capture in blocks of so many bytes.
pub(crate) fn run_capture(capture: &[u8], block: usize, out: &mut [u8])
    requires { (length capture.now ≤ input_room) × (1 ≤ block) }
{
    let run = feed(capture, block, out);
    finish(run, part(capture, run.used, capture.len()), out);
}
