// The complete lines of a block, after line one.
ghost use Rattle.std.specs.Prelude.{◌≡◌, ◌-◌, ◌≤◌, ◌<◌, length, IfSome};
ghost use Rattle.bits.specs.Put.{put};
ghost use Rattle.text.specs.Laid.{laid};
ghost use Rattle.capture_print.specs.Outputs.{numbered, output_line};
ghost use Rattle.capture_blocks.specs.Inner.Rooms.{Room};
ghost use Rattle.capture_blocks.specs.Inner.Lines.{printed_line, line_done, line_over, decoded_from, lines_from};

use crate::{Progress, Step, silent};
use capture_decode::{PRINTED_FRONT, packet_read};
use capture_lines::{NextLine, TEXT_MOST, next_line};
use capture_print::put_answer;
use text::words::part;
use tlp::packet::Packet;
use tlp::refusal::Refusal;
use tlp::settings::Settings;

// The packet of the longest line has fewer bytes: two digits spell one.
pub(crate) const SPACE: usize = TEXT_MOST / 2;

// A complete line: the index of the next line, the end of what was printed for it, and 1 where it is refused.
#[derive(Clone, Copy)]
struct LineDone {
    end: usize,
    written: usize,
    refused: usize,
}

// The same answer, with a refusal as its number: that is what is printed of it.
fn numbered(answer: Result<Packet, Refusal>) -> Result<Packet, u32>
    ensures { result ≡ numbered answer }
{
    match answer {
        Ok(packet) => Ok(packet),
        Err(refusal) => Err(refusal.number()),
    }
}

#[tactic(auto, unfolding(capture_print::specs::Outputs::output_line))]
fn print_line(answer: Result<Packet, Refusal>, end: usize, at: usize, out: &mut [u8]) -> LineDone
    ensures answer { result ≡ printed_line answer end at out.old }
    ensures output { out.new ≡ laid at (output_line answer) out.old }
{
    LineDone {
        end,
        written: put_answer(numbered(answer), at, out),
        refused: usize::from(answer.is_err()),
    }
}

// The line at a place, printed from index at on, where it is complete. The parameters stay apart: in a struct, every
// clause would reach space and out through two lendings.
fn line_at(
    settings: Settings,
    bytes: &[u8],
    place: usize,
    at: usize,
    space: &mut [u8; SPACE],
    out: &mut [u8],
) -> Option<LineDone>
    requires place { place ≤ length bytes.now }
    requires room { Room at (length bytes.now - place) out.old }
    ensures answer { result ≡ line_done settings bytes.now place at }
    ensures output { out.new ≡ line_over settings bytes.now place at out.old }
    ensures forward { IfSome result (λ line. (place < line.end) × (line.end ≤ length bytes.now) × (line.refused ≤ 1)) }
{
    match next_line(bytes, place) {
        NextLine::Unended { .. } => None,
        NextLine::OverLong { end } => Some(print_line(Err(Refusal::BadLine), end, at, out)),
        NextLine::Ended { end } => {
            let text = part(bytes, place, end - 1);
            let answer = packet_read(settings, text, PRINTED_FRONT, space);
            Some(print_line(answer, end, at, out))
        }
    }
}

// Decodes the complete lines from index from on: each is printed behind those before it.
pub(crate) fn decode_lines(
    settings: Settings,
    bytes: &[u8],
    from: usize,
    space: &mut [u8; SPACE],
    out: &mut [u8],
) -> Step
    requires from { from ≤ length bytes.now }
    requires room { Room 0 (length bytes.now - from) out.old }
    ensures answer { result ≡ lines_from settings bytes.now from }
    ensures output { out.new ≡ put 0 (decoded_from settings bytes.now from).output out.old }
    ensures room { Room result.written (length bytes.now - result.used) out.old }
    ensures counts { (result.lines ≤ result.used) × (result.refused ≤ result.lines) × (result.used ≤ length bytes.now) }
{
    let mut step = silent(Progress::Lines(settings), from);
    while let Some(line) = line_at(settings, bytes, step.used, step.written, space, out) {
        step.used = line.end;
        step.written = line.written;
        step.lines += 1;
        step.refused += line.refused;
    }
    step
}
