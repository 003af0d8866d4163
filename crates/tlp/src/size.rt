// The size that a header calls for.
ghost use Rattle.std.specs.Prelude.{◌≡◌};
ghost use Rattle.tlp.specs.Rows.{first};
ghost use Rattle.tlp.specs.Refusals.{checked};
ghost use Rattle.tlp.specs.Sizes.{or_most, length_at, digest_at, data_bytes, digest_bytes, bytes_called, type_rows, size_called};

use crate::packet_type::{PacketType, family_of, has_data, header_dw, is_unlisted, type_at};
use crate::refusal::Refusal;
use bits::word::{byte_at, join16};

// A field in which 0 stands for the largest value.
#[tactic(auto, unfolding(crate::specs::Sizes::or_most))]
pub fn or_most(most: u32, n: u32) -> u32
    ensures { result ≡ or_most most n }
{
    if n == 0 { most } else { n }
}

// The Length field, in doublewords.
#[tactic(auto, unfolding(crate::specs::Sizes::length_at))]
pub fn length_at(bytes: &[u8]) -> u32
    ensures { result ≡ length_at bytes.now }
{
    let n = join16(byte_at(bytes, 2) % 4, byte_at(bytes, 3));
    or_most(1024, u32::from(n))
}

// TD: whether a digest follows.
#[tactic(auto, unfolding(crate::specs::Sizes::digest_at))]
pub fn digest_at(bytes: &[u8]) -> bool
    ensures { result ≡ digest_at bytes.now }
{
    byte_at(bytes, 2) / 128 % 2 == 1
}

// The bytes of data of a packet of n doublewords.
#[tactic(auto, unfolding(crate::specs::Sizes::data_bytes))]
pub fn data_bytes(t: PacketType, n: u32) -> usize
    ensures { result ≡ data_bytes t n }
{
    if has_data(t) { 4 * n as usize } else { 0 }
}

// The bytes that a digest takes.
#[tactic(auto, unfolding(crate::specs::Sizes::digest_bytes))]
pub fn digest_bytes(present: bool) -> usize
    ensures { result ≡ digest_bytes present }
{
    if present { 4 } else { 0 }
}

fn bytes_called(t: PacketType, bytes: &[u8]) -> usize
    ensures { result ≡ bytes_called t bytes.now }
{
    4 * header_dw(t) + data_bytes(t, length_at(bytes)) + digest_bytes(digest_at(bytes))
}

// The rows 1, 2 and 1 of n bytes whose byte 0 says type t.
#[tactic(auto, unfolding(crate::specs::Rows::first, crate::specs::Refusals::refusal))]
fn type_fault(n: usize, t: PacketType) -> Result<(), Refusal>
    ensures { result ≡ checked (first (type_rows n t)) }
{
    if n < 12 {
        return Err(Refusal::HeaderIncomplete);
    }
    if is_unlisted(family_of(t)) {
        return Err(Refusal::UnknownKind);
    }
    if header_dw(t) == 4 && n < 16 {
        return Err(Refusal::HeaderIncomplete);
    }
    Ok(())
}

// How many bytes the packet that starts here has, by its own header.
#[tactic(auto, unfolding(crate::specs::Sizes::size_called))]
pub fn packet_size(bytes: &[u8]) -> Result<usize, Refusal>
    ensures { result ≡ size_called bytes.now }
{
    let t = type_at(byte_at(bytes, 0));
    type_fault(bytes.len(), t)?;
    Ok(bytes_called(t, bytes))
}
