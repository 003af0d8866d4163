// A completion straight from its bytes, for who takes nothing else: the other kinds need not be looked for.
ghost use Rattle.std.specs.Prelude.{◌≡◌};
ghost use Rattle.tlp.specs.Rows.{first};
ghost use Rattle.tlp.specs.Refusals.{checked};
ghost use Rattle.tlp_read.specs.Completions.{has_completion, completion_type, completion_packet, completion_rows};

use crate::fields::packet_at;
use crate::rows::size_with_digest;
use bits::word::byte_at;
use tlp::packet::Packet;
use tlp::packet_type::PacketType;
use tlp::refusal::Refusal;

// Whether byte 0 is that of Cpl or CplD, and the header there whole.
#[tactic(auto, unfolding(crate::specs::Completions::has_completion))]
pub fn has_completion(bytes: &[u8]) -> bool
    ensures { result ≡ has_completion bytes.now }
{
    12 <= bytes.len() && matches!(byte_at(bytes, 0), 0x4a | 0x0a)
}

fn completion_type(b0: u8) -> PacketType
    ensures { result ≡ completion_type b0 }
{
    if b0 == 0x4a {
        PacketType::CplD
    } else {
        PacketType::Cpl
    }
}

// The bytes as a completion.
#[tactic(auto, unfolding(crate::specs::Completions::completion_packet))]
pub fn completion_packet(bytes: &[u8]) -> Packet
    ensures { result ≡ completion_packet bytes.now }
{
    packet_at(completion_type(byte_at(bytes, 0)), bytes)
}

// The first of 3 and 5 that holds for a completion of n doublewords.
pub fn completion_fault(mps: u32, n: u32, bytes: &[u8]) -> Result<(), Refusal>
    ensures { result ≡ checked (first (completion_rows mps n bytes.now)) }
{
    let size = 4 * n as usize;
    if bytes.len() != size_with_digest(12, size, bytes) {
        return Err(Refusal::SizeMismatch);
    }
    if (mps as usize) < size {
        return Err(Refusal::OverMaxPayload);
    }
    Ok(())
}
