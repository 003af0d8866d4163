// What is printed for lines, and the totals. `as u64`, no u64::from: with it the check did not find that the line is
// the number's.
#![tactic(auto)]

mod line;

ghost use Rattle.std.specs.Prelude.{◌≡◌, ◌≤◌, length};
ghost use Rattle.text.specs.Laid.{laid, after};
ghost use Rattle.capture_print.specs.Words.{kind_word};
ghost use Rattle.capture_print.specs.Outputs.{tag_in, code_line, packet_output, answer_line, totals_line};

use crate::line::Line;
use tlp::packet::{Kind, Packet, access_of, type_of};
use tlp::packet_type::PacketType;

fn tag_in(kind: Kind) -> u8
    ensures { result ≡ tag_in kind }
{
    match kind {
        Kind::MemoryRead(q) | Kind::MemoryWrite(q) | Kind::IoRead(q) | Kind::IoWrite(q) => q.tag,
        Kind::ConfigRead0(q)
        | Kind::ConfigWrite0(q)
        | Kind::ConfigRead1(q)
        | Kind::ConfigWrite1(q) => q.request.tag,
        Kind::Message(q) | Kind::MessageData { message: q, .. } => q.tag,
        Kind::Completion(q) | Kind::CompletionData { completion: q, .. } => q.tag,
    }
}

fn kind_word(t: PacketType) -> &'static [u8]
    ensures word { result.now ≡ kind_word t }
    ensures size { length result.now ≤ 6 }
{
    match t {
        PacketType::MRd32 => b"MRd32",
        PacketType::MRd64 => b"MRd64",
        PacketType::MWr32 => b"MWr32",
        PacketType::MWr64 => b"MWr64",
        PacketType::IORd => b"IORd",
        PacketType::IOWr => b"IOWr",
        PacketType::CfgRd0 => b"CfgRd0",
        PacketType::CfgWr0 => b"CfgWr0",
        PacketType::CfgRd1 => b"CfgRd1",
        PacketType::CfgWr1 => b"CfgWr1",
        PacketType::Msg => b"Msg",
        PacketType::MsgD => b"MsgD",
        PacketType::Cpl => b"Cpl",
        PacketType::CplD => b"CplD",
        PacketType::Unlisted => b"",
    }
}

// Prints a number's line: laid into out from index at on, and the index after it; at and nothing laid where it does not
// fit. A number, no Refusal: what a public function is given stays as it was.
pub fn put_code(number: u32, at: usize, out: &mut [u8]) -> usize
    ensures answer { result ≡ after at (code_line number) out.old }
    ensures output { out.new ≡ laid at (code_line number) out.old }
{
    let mut line = Line::new();
    line.add(b"code=");
    line.add_number(number as u64);
    line.add(b"\n");
    line.put(at, out)
}

fn put_packet(packet: Packet, at: usize, out: &mut [u8]) -> usize
    ensures answer { result ≡ after at (packet_output packet) out.old }
    ensures output { out.new ≡ laid at (packet_output packet) out.old }
{
    let mut line = Line::new();
    line.add(b"code=0 kind=");
    line.add(kind_word(type_of(packet)));
    line.add(b" tag=");
    line.add_number(tag_in(packet.kind) as u64);
    line.add(b" dw=");
    line.add_number(access_of(packet).length as u64);
    line.add(b"\n");
    line.put(at, out)
}

// Prints what a line after the first gave, as put_code does its line: the packet that was read, or the number of the
// refusal of the packet or of the line. Any number is printed, as by put_code.
pub fn put_answer(answer: Result<Packet, u32>, at: usize, out: &mut [u8]) -> usize
    ensures answer { result ≡ after at (answer_line answer) out.old }
    ensures output { out.new ≡ laid at (answer_line answer) out.old }
{
    match answer {
        Ok(packet) => put_packet(packet, at, out),
        Err(number) => put_code(number, at, out),
    }
}

// Prints the totals, as put_code does its line.
pub fn put_totals(lines: u64, refused: u64, at: usize, out: &mut [u8]) -> usize
    ensures answer { result ≡ after at (totals_line lines refused) out.old }
    ensures output { out.new ≡ laid at (totals_line lines refused) out.old }
{
    let mut line = Line::new();
    line.add(b"lines=");
    line.add_number(lines);
    line.add(b" refused=");
    line.add_number(refused);
    line.add(b"\n");
    line.put(at, out)
}
