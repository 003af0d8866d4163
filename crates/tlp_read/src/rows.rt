// Rows 2 to 10 of the number table, over the bytes: one branch by family; what differs within a family is taken from
// byte 0.
ghost use Rattle.std.specs.Prelude.{◌≡◌, true, false, ◌+◌, ◌*◌, ◌≤◌, length};
ghost use Rattle.tlp.specs.Rows.{first};
ghost use Rattle.tlp.specs.Refusals.{checked};
ghost use Rattle.tlp.specs.PacketTypes.{packet_type_at, header_dw, is_unlisted, is_io_or_config};
ghost use Rattle.tlp.specs.Sizes.{digest_at, digest_bytes};
ghost use Rattle.tlp_read.specs.Inner.Rows.{family_at, Listed, HeaderThere, access_read, data_read, most_data, hint_or_address_type_at, not_plain_at, last_given, wide_form_bad, payload_rows, judged_rows, header_rows};

use crate::fields::{
    address_type_at, first_enables_at, hint_at, last_enables_at, low_attributes_at, memory_address,
    routing_at, traffic_class_at,
};
use bits::word::{byte_at, word32};
use byte_enables::Access;
use tlp::content::{memory_fault, not_plain};
use tlp::packet_type::{Family, data_follows, family_by_type, is_listed, is_wide};
use tlp::refusal::Refusal;
use tlp::size::{digest_at, digest_bytes, length_at};

// The size of the header of a type in the table. Three functions ask that it is Listed: a struct for that would hold
// the slice alone, and each of them would open it.
fn header_size(bytes: &[u8]) -> usize
    requires { Listed bytes.now }
    ensures { (result ≡ 4 * header_dw (packet_type_at bytes.now)) × (result ≤ 16) }
{
    if is_wide(byte_at(bytes, 0)) { 16 } else { 12 }
}

// The bytes of data that the Length field calls for.
fn data_size(bytes: &[u8]) -> usize
    requires { Listed bytes.now }
    ensures { (result ≡ data_read bytes.now) × (result ≤ most_data) }
{
    if data_follows(byte_at(bytes, 0)) {
        4 * length_at(bytes) as usize
    } else {
        0
    }
}

// Header and data, with the digest where TD is set.
pub(crate) fn size_with_digest(header: usize, payload: usize, bytes: &[u8]) -> usize
    requires header_fits { header ≤ 16 }
    requires payload_fits { payload ≤ most_data }
    ensures { result ≡ header + payload + digest_bytes (digest_at bytes.now) }
{
    header + payload + digest_bytes(digest_at(bytes))
}

// TH set or AT not 0.
fn hint_or_address_type_at(bytes: &[u8]) -> bool
    ensures { result ≡ hint_or_address_type_at bytes.now }
{
    hint_at(bytes) || address_type_at(bytes) != 0
}

// MRd64 or MWr64 with the top 32 address bits 0.
fn wide_form_bad(bytes: &[u8]) -> bool
    requires { Listed bytes.now }
    ensures { result ≡ wide_form_bad bytes.now }
{
    is_wide(byte_at(bytes, 0)) && word32(bytes, 8) == 0
}

// What I/O and configuration must not have.
fn not_plain_at(bytes: &[u8]) -> bool
    ensures { result ≡ not_plain_at bytes.now }
{
    not_plain(
        length_at(bytes),
        traffic_class_at(bytes),
        low_attributes_at(bytes),
        address_type_at(bytes),
    )
}

// I/O and configuration follow Length 1: last is 0000.
fn last_given(bytes: &[u8]) -> bool
    ensures { result ≡ last_given bytes.now }
{
    last_enables_at(bytes) != 0
}

// A packet whose header is there whole, with the data that this calls for and the largest that may be.
#[derive(Clone, Copy)]
struct Whole<'a> {
    mps: u32,
    payload: usize,
    bytes: &'a [u8],
    ghost payload_is: { payload ≡ data_read bytes.now },
    ghost header_there: { HeaderThere bytes.now },
}

impl<'a> Whole<'a> {
    // Row 5: more data than may be.
    #[tactic(auto, unfolding(tlp::specs::Rows::first, tlp::specs::Refusals::refusal))]
    fn payload_fault(self) -> Result<(), Refusal>
        ensures { result ≡ checked (first (payload_rows self.entry.mps self.entry.bytes.now)) }
    {
        if (self.mps as usize) < self.payload {
            return Err(Refusal::OverMaxPayload);
        }
        Ok(())
    }

    fn memory_access(self) -> Access
        requires { family_at self.bytes.now ≡ Family.Memory }
        ensures { result ≡ access_read self.entry.bytes.now }
    {
        Access {
            address: memory_address(self.bytes),
            length: length_at(self.bytes),
            first: first_enables_at(self.bytes),
            last: last_enables_at(self.bytes),
        }
    }

    fn memory_fault(self) -> Result<(), Refusal>
        requires { family_at self.bytes.now ≡ Family.Memory }
        ensures { result ≡ checked (first (judged_rows self.entry.mps self.entry.bytes.now)) }
    {
        if hint_or_address_type_at(self.bytes) {
            return Err(Refusal::HintOrAddressType);
        }
        self.payload_fault()?;
        memory_fault(self.memory_access())?;
        if wide_form_bad(self.bytes) {
            return Err(Refusal::Needless64BitForm);
        }
        Ok(())
    }

    // I/O and configuration.
    fn register_fault(self) -> Result<(), Refusal>
        requires { is_io_or_config (family_at self.bytes.now) ≡ true }
        ensures { result ≡ checked (first (judged_rows self.entry.mps self.entry.bytes.now)) }
    {
        self.payload_fault()?;
        if not_plain_at(self.bytes) {
            return Err(Refusal::BadField);
        }
        if last_given(self.bytes) {
            return Err(Refusal::BadEnables);
        }
        Ok(())
    }

    fn message_fault(self) -> Result<(), Refusal>
        requires { family_at self.bytes.now ≡ Family.Message }
        ensures { result ≡ checked (first (judged_rows self.entry.mps self.entry.bytes.now)) }
    {
        self.payload_fault()?;
        if 5 < routing_at(self.bytes) {
            return Err(Refusal::BadRouting);
        }
        Ok(())
    }

    fn completion_fault(self) -> Result<(), Refusal>
        requires { family_at self.bytes.now ≡ Family.Completion }
        ensures { result ≡ checked (first (judged_rows self.entry.mps self.entry.bytes.now)) }
    {
        self.payload_fault()
    }

    // The first of the rows 4 to 10 that holds.
    fn fault(self, f: Family) -> Result<(), Refusal>
        requires family { f ≡ family_at self.bytes.now }
        requires listed { is_unlisted f ≡ false }
        ensures { result ≡ checked (first (judged_rows self.entry.mps self.entry.bytes.now)) }
    {
        match f {
            Family::Memory => self.memory_fault(),
            Family::Io | Family::Config => self.register_fault(),
            Family::Message => self.message_fault(),
            Family::Completion => self.completion_fault(),
            Family::Unlisted => Ok(()),
        }
    }
}

// The first that holds of the rows after the one for fewer than 12 bytes.
pub(crate) fn header_fault(mps: u32, bytes: &[u8]) -> Result<(), Refusal>
    requires { 12 ≤ length bytes.now }
    ensures { result ≡ checked (first (header_rows mps bytes.now)) }
{
    let b0 = byte_at(bytes, 0);
    if !is_listed(b0) {
        return Err(Refusal::UnknownKind);
    }
    let header = header_size(bytes);
    if bytes.len() < header {
        return Err(Refusal::HeaderIncomplete);
    }
    let payload = data_size(bytes);
    if bytes.len() != size_with_digest(header, payload, bytes) {
        return Err(Refusal::SizeMismatch);
    }
    let packet = Whole {
        mps,
        payload,
        bytes,
    };
    packet.fault(family_by_type(b0))
}
