// What the lines of a capture give: the decoding as a definition, and the reading of a packet line.
#![tactic(auto)]

ghost use Rattle.std.specs.Prelude.{◌≡◌};
ghost use Rattle.capture.specs.PacketLines.{packet_line, packet_over};
ghost use Rattle.capture_decode.specs.PacketReads.{packet_read};

use capture::packet_line::packet_line;
use text::words::part;
use tlp::packet::Packet;
use tlp::refusal::Refusal;
use tlp::settings::Settings;
use tlp_read::read;

// No more of a packet's bytes are looked at for what is printed.
pub const PRINTED_FRONT: usize = 16;

// A line prints at most so many bytes for each of its bytes, the newline among them.
pub const PRINTED_EACH: usize = 8;

// Reads the packet of a line's text. Its first most bytes go over the front of space, and as many bytes of space as it
// has are read: with most at its size or above the packet itself, with PRINTED_FRONT what prints the same.
#[tactic(auto, using(crate::proofs::PacketReadLaws::packet_read_laws))]
pub fn packet_read(
    settings: Settings,
    text: &[u8],
    most: usize,
    space: &mut [u8],
) -> Result<Packet, Refusal>
    ensures answer { result ≡ packet_read settings most (packet_line text.now) space.old }
    ensures output { space.new ≡ packet_over most (packet_line text.now) space.old }
{
    let entry = packet_line(text, most, space)?;
    read(settings, part(space, 0, entry.size))
}
