// How far a run has come.
ghost use Rattle.std.specs.Prelude.{◌≡◌, ◌≤◌};
ghost use Rattle.decode.specs.Turns.{first_run, ended_run, stopped_run, goes_on, advanced_run};
ghost use Rattle.decode.specs.Inner.Sizes.{input_room, lines_most};

use capture_blocks::{Progress, Step};

#[derive(Clone, Copy)]
pub(crate) struct Run {
    pub progress: Progress,
    // How many bytes at the front of the buffer belong to a line that is not complete.
    pub kept: usize,
    // The lines so far, and the refused ones among them.
    pub lines: u64,
    pub refused: u64,
    // Whether to read on. It stays beside the rest, which the end of the input still needs when it is false.
    pub more: bool,
}

// Before the first byte.
pub(crate) fn first_run() -> Run
    ensures { result ≡ first_run }
{
    Run {
        progress: Progress::First,
        kept: 0,
        lines: 0,
        refused: 0,
        more: true,
    }
}

// At the end of the input: the kept bytes are still to be decoded.
pub(crate) fn ended(run: Run) -> Run
    ensures { result ≡ ended_run run }
{
    Run { more: false, ..run }
}

// After a failure: nothing more is read or printed.
pub(crate) fn stopped() -> Run
    ensures { result ≡ stopped_run }
{
    Run {
        progress: Progress::Refused,
        more: false,
        ..first_run()
    }
}

// Whether what follows can print anything: not after a bad first line.
fn goes_on(progress: Progress) -> bool
    ensures { result ≡ goes_on progress }
{
    !matches!(progress, Progress::Refused)
}

// After a step that left so many bytes.
pub(crate) fn advanced(run: Run, step: Step, kept: usize) -> Run
    requires lines_so_far { run.lines ≤ lines_most }
    requires lines_of_the_step { step.lines ≤ input_room }
    requires refused_so_far { run.refused ≤ run.lines }
    requires refused_of_the_step { step.refused ≤ step.lines }
    ensures { result ≡ advanced_run run step.progress kept step.lines step.refused }
{
    Run {
        progress: step.progress,
        kept,
        lines: run.lines + step.lines as u64,
        refused: run.refused + step.refused as u64,
        more: goes_on(step.progress),
    }
}
