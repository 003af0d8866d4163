// The lines after line one: a packet each.
ghost use Rattle.std.specs.Prelude.{◌≡◌};
ghost use Rattle.text.specs.Hex.{bytes_spelled};
ghost use Rattle.capture.specs.PacketLines.{direction_after, front_of, packet_line, entry_answer, packet_over};
ghost use Rattle.capture.specs.Inner.Unlaid.{unlaid};

use text::fields::{decimal_after, key_after};
use text::hex::{hex_front, hex_only};
use text::number::MOST_32;
use text::words::part;
use tlp::refusal::Refusal;

#[derive(Clone, Copy, Debug, PartialEq, Eq)]
pub enum Direction {
    Rx,
    Tx,
}

// A packet line: its time, its direction, and how many bytes its packet has.
#[derive(Clone, Copy, Debug, PartialEq, Eq)]
pub struct Entry {
    pub at: u32,
    pub direction: Direction,
    pub size: usize,
}

// What stands before the packet's digits, the first of which is at index digits.
#[derive(Clone, Copy)]
struct Front {
    at: u32,
    direction: Direction,
    size: u32,
    digits: usize,
}

// The direction whose key stands from index at on, and the index after it.
#[tactic(auto, unfolding(crate::specs::PacketLines::direction_after))]
fn direction_after(text: &[u8], at: usize) -> Option<(Direction, usize)>
    ensures { result ≡ direction_after text.now at }
{
    let rx = key_after(text, at, b" dir=rx").map(|next| (Direction::Rx, next));
    rx.or_else(|| key_after(text, at, b" dir=tx").map(|next| (Direction::Tx, next)))
}

#[tactic(auto, unfolding(crate::specs::PacketLines::front_of))]
fn front_of(text: &[u8]) -> Option<Front>
    ensures { result ≡ front_of text.now }
{
    let at = decimal_after(text, 0, b"at=", MOST_32)?;
    let (direction, next) = direction_after(text, at.next)?;
    let size = decimal_after(text, next, b" len=", MOST_32)?;
    let digits = key_after(text, size.next, b" tlp=")?;
    Some(Front {
        at: at.value as u32,
        direction,
        size: size.value as u32,
        digits,
    })
}

// The refusal of digits for whose packet there is no room: bad ones are a bad line.
#[tactic(auto, unfolding(text::specs::Hex::bytes_spelled))]
fn unlaid(digits: &[u8]) -> Refusal
    ensures { result ≡ unlaid (bytes_spelled digits.now) }
{
    if digits.len() % 2 != 0 || !hex_only(digits) {
        Refusal::BadLine
    } else {
        Refusal::OutputTooShort
    }
}

// Reads a packet line: its packet's first most bytes go over the front of out, which stays as it was where the line is
// refused. A bad line is refused as such, a good one for whose packet there is no room as output that is too short.
#[tactic(auto, using(crate::proofs::PacketLineLaws::packet_line_laws), unfolding(crate::specs::PacketLines::packet_line))]
pub fn packet_line(text: &[u8], most: usize, out: &mut [u8]) -> Result<Entry, Refusal>
    ensures answer { result ≡ entry_answer most (packet_line text.now) out.old }
    ensures output { out.new ≡ packet_over most (packet_line text.now) out.old }
{
    let front = front_of(text).ok_or(Refusal::BadLine)?;
    let digits = part(text, front.digits, text.len());
    if digits.len() / 2 != front.size as usize {
        return Err(Refusal::BadLine);
    }
    if out.len() < most.min(digits.len() / 2) {
        return Err(unlaid(digits));
    }
    let size = hex_front(digits, most, out).ok_or(Refusal::BadLine)?;
    Ok(Entry {
        at: front.at,
        direction: front.direction,
        size,
    })
}
