// The decoding of a capture that comes block by block.
#![tactic(auto)]

mod lines;

ghost use Rattle.std.specs.Prelude.{◌≡◌, ◌-◌, ◌≤◌, length};
ghost use Rattle.bits.specs.Put.{put};
ghost use Rattle.text.specs.Laid.{laid, after};
ghost use Rattle.tlp.specs.Refusals.{number};
ghost use Rattle.capture_print.specs.Outputs.{code_line};
ghost use Rattle.capture_blocks.specs.Blocks.{header_refused, step_of, end_of, totals_follow, totals_of};
ghost use Rattle.capture_blocks.specs.Answers.{step_in, ending, step_answer, step_over, end_answer, end_over};
ghost use Rattle.capture_blocks.specs.Inner.Rooms.{Room};
ghost use Rattle.capture_blocks.specs.Inner.Steps.{lines_step, header_step, first_step, skipping_step, printed_step};
ghost use Rattle.capture_blocks.specs.Inner.Steps.{silent_step, number_step};

use crate::lines::{SPACE, decode_lines};
use capture::header::header_line;
use capture_decode::PRINTED_EACH;
use capture_lines::{NextLine, TEXT_MOST, next_line};
use capture_print::{put_code, put_totals};
use text::words::part;
use tlp::refusal::Refusal;
use tlp::settings::Settings;

// How far a capture has been decoded.
#[derive(Clone, Copy, Debug, PartialEq, Eq)]
pub enum Progress {
    // Line one has not come.
    First,
    // Line one was good.
    Lines(Settings),
    // Line one was good, and what comes is the rest of an over-long line, up to its newline.
    Skipping(Settings),
    // Line one was bad: nothing more is printed.
    Refused,
}

// What a step came to: how many of its bytes are done with, how many were printed, and how many lines there are and are
// refused.
#[derive(Clone, Copy, Debug, PartialEq, Eq)]
pub struct Step {
    pub progress: Progress,
    pub used: usize,
    pub written: usize,
    pub lines: usize,
    pub refused: usize,
}

// A step that prints nothing.
fn silent(progress: Progress, used: usize) -> Step
    ensures { result ≡ silent_step progress used }
{
    Step {
        progress,
        used,
        written: 0,
        lines: 0,
        refused: 0,
    }
}

// A step over all of bytes that prints a refusal's number alone, for so many lines.
fn print_refusal(
    progress: Progress,
    bytes: &[u8],
    refusal: Refusal,
    lines: usize,
    out: &mut [u8],
) -> Step
    ensures answer { result ≡ number_step progress (length bytes.now) (number refusal) lines out.old }
    ensures output { out.new ≡ laid 0 (code_line (number refusal)) out.old }
{
    Step {
        progress,
        used: bytes.len(),
        written: put_code(refusal.number(), 0, out),
        lines,
        refused: lines,
    }
}

// The lines after line one, from index from on.
fn step_lines(
    settings: Settings,
    bytes: &[u8],
    from: usize,
    space: &mut [u8; SPACE],
    out: &mut [u8],
) -> Step
    requires from { from ≤ length bytes.now }
    requires room { Room 0 (length bytes.now - from) out.old }
    ensures answer { result ≡ step_in (lines_step settings bytes.now from) (length bytes.now) }
    ensures output { out.new ≡ printed_step (lines_step settings bytes.now from) out.old }
{
    let step = decode_lines(settings, bytes, from, space, out);
    if bytes.len() - step.used <= TEXT_MOST {
        return step;
    }
    Step {
        progress: Progress::Skipping(settings),
        used: bytes.len(),
        written: put_code(Refusal::BadLine.number(), step.written, out),
        lines: step.lines + 1,
        refused: step.refused + 1,
    }
}

// Line one is bad, or over-long: nothing of what follows it is decoded.
#[tactic(auto, using(crate::proofs::StepReturns::refused_laws))]
fn refuse_header(bytes: &[u8], out: &mut [u8]) -> Step
    requires { Room 0 1 out.old }
    ensures answer { result ≡ step_in header_refused (length bytes.now) }
    ensures output { out.new ≡ printed_step header_refused out.old }
{
    print_refusal(Progress::Refused, bytes, Refusal::BadSetting, 0, out)
}

// Line one, up to index end, and what follows it.
fn step_header(bytes: &[u8], end: usize, space: &mut [u8; SPACE], out: &mut [u8]) -> Step
    requires end { (1 ≤ end) × (end ≤ length bytes.now) }
    requires room { Room 0 (length bytes.now) out.old }
    ensures answer { result ≡ step_in (header_step bytes.now end) (length bytes.now) }
    ensures output { out.new ≡ printed_step (header_step bytes.now end) out.old }
{
    match header_line(part(bytes, 0, end - 1)) {
        None => refuse_header(bytes, out),
        Some(header) => step_lines(header.settings, bytes, end, space, out),
    }
}

// Line one has not come.
fn step_first(bytes: &[u8], space: &mut [u8; SPACE], out: &mut [u8]) -> Step
    requires { Room 0 (length bytes.now) out.old }
    ensures answer { result ≡ step_in (first_step bytes.now) (length bytes.now) }
    ensures output { out.new ≡ printed_step (first_step bytes.now) out.old }
{
    match next_line(bytes, 0) {
        NextLine::Ended { end } => step_header(bytes, end, space, out),
        NextLine::OverLong { .. } => refuse_header(bytes, out),
        NextLine::Unended { end } => {
            if end <= TEXT_MOST {
                silent(Progress::First, 0)
            } else {
                refuse_header(bytes, out)
            }
        }
    }
}

// What comes begins with the rest of an over-long line.
fn step_skipping(settings: Settings, bytes: &[u8], space: &mut [u8; SPACE], out: &mut [u8]) -> Step
    requires { Room 0 (length bytes.now) out.old }
    ensures answer { result ≡ step_in (skipping_step settings bytes.now) (length bytes.now) }
    ensures output { out.new ≡ printed_step (skipping_step settings bytes.now) out.old }
{
    match next_line(bytes, 0) {
        NextLine::OverLong { end } | NextLine::Ended { end } => step_lines(
            settings, bytes, end, space, out,
        ),
        NextLine::Unended { .. } => silent(Progress::Skipping(settings), bytes.len()),
    }
}

// A step for which there is room.
#[tactic(auto, using(crate::proofs::CallReturns::within_laws), unfolding(crate::specs::Blocks::step_of))]
fn step_within(progress: Progress, bytes: &[u8], out: &mut [u8]) -> Step
    requires { Room 0 (length bytes.now) out.old }
    ensures answer { result ≡ step_in (step_of progress bytes.now) (length bytes.now) }
    ensures output { out.new ≡ printed_step (step_of progress bytes.now) out.old }
{
    let mut space = [0u8; SPACE];
    match progress {
        Progress::First => step_first(bytes, &mut space, out),
        Progress::Lines(settings) => step_lines(settings, bytes, 0, &mut space, out),
        Progress::Skipping(settings) => step_skipping(settings, bytes, &mut space, out),
        Progress::Refused => silent(progress, bytes.len()),
    }
}

// Decodes what is complete in bytes: what the step before left, with a block behind it. What is printed goes over the
// front of out, which needs room for PRINTED_EACH bytes for each byte that is given; with less it is too short.
pub fn decode_block(progress: Progress, bytes: &[u8], out: &mut [u8]) -> Result<Step, Refusal>
    ensures answer { result ≡ step_answer progress bytes.now out.old }
    ensures output { out.new ≡ step_over progress bytes.now out.old }
{
    if out.len() / PRINTED_EACH < bytes.len() {
        return Err(Refusal::OutputTooShort);
    }
    Ok(step_within(progress, bytes, out))
}

// The end of the input, where there is room.
fn end_within(progress: Progress, rest: &[u8], out: &mut [u8]) -> Step
    requires { Room 0 1 out.old }
    ensures answer { result ≡ step_in (ending progress rest.now) (length rest.now) }
    ensures output { out.new ≡ put 0 (end_of progress rest.now).output out.old }
{
    match progress {
        Progress::First => print_refusal(progress, rest, Refusal::BadSetting, 0, out),
        Progress::Lines(_) => {
            if rest.is_empty() {
                silent(progress, rest.len())
            } else {
                print_refusal(progress, rest, Refusal::BadLine, 1, out)
            }
        }
        Progress::Skipping(_) | Progress::Refused => silent(progress, rest.len()),
    }
}

// Prints what the end of the input gives, before the totals; rest is what the last step left. With room for fewer than
// PRINTED_EACH bytes it is too short.
pub fn decode_end(progress: Progress, rest: &[u8], out: &mut [u8]) -> Result<Step, Refusal>
    ensures answer { result ≡ end_answer progress rest.now out.old }
    ensures output { out.new ≡ end_over progress rest.now out.old }
{
    if out.len() < PRINTED_EACH {
        return Err(Refusal::OutputTooShort);
    }
    Ok(end_within(progress, rest, out))
}

#[tactic(auto, unfolding(crate::specs::Blocks::totals_follow))]
fn totals_follow(progress: Progress) -> bool
    ensures { result ≡ totals_follow progress }
{
    matches!(progress, Progress::Lines(_) | Progress::Skipping(_))
}

// Prints the totals, where they follow: laid into out from index at on, and the index after them; at and nothing laid
// where they do not fit.
#[tactic(auto, using(crate::proofs::CallReturns::totals_laws))]
pub fn put_totals_of(
    progress: Progress,
    lines: u64,
    refused: u64,
    at: usize,
    out: &mut [u8],
) -> usize
    ensures answer { result ≡ after at (totals_of progress lines refused) out.old }
    ensures output { out.new ≡ laid at (totals_of progress lines refused) out.old }
{
    if totals_follow(progress) {
        put_totals(lines, refused, at, out)
    } else {
        at
    }
}
