// Reading packets.
#![tactic(auto)]

pub mod completion;
pub mod fields;
mod rows;

ghost use Rattle.std.specs.Prelude.{◌≡◌};
ghost use Rattle.tlp.specs.Rows.{first};
ghost use Rattle.tlp.specs.Refusals.{checked};
ghost use Rattle.tlp_read.specs.Read.{read_rows, read_packet, payload_of};

use bits::word::byte_at;
use tlp::packet::{Packet, access_of, type_of};
use tlp::packet_type::{header_dw, type_at};
use tlp::refusal::Refusal;
use tlp::settings::{Settings, settings_listed};
use tlp::size::data_bytes;

// The first refusal that is given for the bytes, with no packet made.
pub fn check(settings: Settings, bytes: &[u8]) -> Result<(), Refusal>
    ensures { result ≡ checked (first (read_rows settings bytes.now)) }
{
    if !settings_listed(settings) {
        return Err(Refusal::BadSetting);
    }
    if bytes.len() < 12 {
        return Err(Refusal::HeaderIncomplete);
    }
    rows::header_fault(settings.mps, bytes)
}

// The packet in the bytes, or the first refusal that is given for them.
#[tactic(auto, unfolding(crate::specs::Read::read_packet))]
pub fn read(settings: Settings, bytes: &[u8]) -> Result<Packet, Refusal>
    ensures { result ≡ read_packet settings bytes.now }
{
    check(settings, bytes)?;
    Ok(fields::packet_at(type_at(byte_at(bytes, 0)), bytes))
}

// The data of a packet, as the part of the bytes that holds it.
pub fn payload<'a>(p: Packet, bytes: &'a [u8]) -> &'a [u8]
    ensures { result.now ≡ payload_of p bytes.now }
{
    let t = type_of(p);
    let start = (4 * header_dw(t)).min(bytes.len());
    let size = data_bytes(t, access_of(p).length).min(bytes.len() - start);
    &bytes[start..start + size]
}
