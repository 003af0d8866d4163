// Writing packets.
#![tactic(auto)]

pub mod head;
mod put;
pub mod words;

ghost use Rattle.std.specs.Prelude.{◌≡◌, ◌++◌, ◌+◌, ◌≤◌, eqb, length};
ghost use Rattle.bits.specs.Choice.{pick};
ghost use Rattle.bits.specs.Put.{put, over_front};
ghost use Rattle.tlp.specs.Rows.{first};
ghost use Rattle.tlp.specs.Refusals.{checked};
ghost use Rattle.tlp.specs.PacketTypes.{header_dw};
ghost use Rattle.tlp_write.specs.Write.{field_rows, write_packet, write_out};
ghost use Rattle.tlp_write.specs.Inner.Head.{head_bytes, head_digest, whole_size, judged_answer, judged_out, head_answer, head_out};
ghost use Rattle.tlp_write.specs.Inner.Lay.{lay_answer, lay_out};

use crate::head::{Head, front_word, head_of, listed_fault};
use tlp::packet::Packet;
use tlp::packet_type::{PacketType, header_dw};
use tlp::refusal::Refusal;
use tlp::settings::{Settings, settings_listed};
use tlp::size::{data_bytes, digest_bytes};
use tlp_writable::given_fault;

fn is_wide(t: PacketType) -> bool
    ensures { result ≡ eqb (header_dw t) 4 }
{
    header_dw(t) == 4
}

fn head_size(t: PacketType) -> usize
    ensures { (result ≡ pick (eqb (header_dw t) 4) 16 12) × (result ≤ 16) }
{
    if is_wide(t) { 16 } else { 12 }
}

// Header, data and digest. A length of 32 bits calls for no more data than that.
fn whole_size(h: Head) -> usize
    ensures { result ≡ whole_size h }
{
    head_size(h.packet_type) + data_bytes(h.packet_type, h.length) + digest_bytes(h.has_digest)
}

// The first that holds of the rows 11 and, for the packet's fields, 6.
#[tactic(auto, unfolding(tlp::specs::Rows::first, tlp::specs::Refusals::refusal))]
fn field_fault(settings: Settings, p: Packet) -> Result<(), Refusal>
    ensures { result ≡ checked (first (field_rows settings p)) }
{
    if settings_listed(settings) {
        given_fault(p)
    } else {
        Err(Refusal::BadSetting)
    }
}

// The size to write: the rows 3, 5, the fault and 12 are looked at, for a payload of n bytes.
#[tactic(auto, unfolding(tlp::specs::Rows::first, tlp::specs::Refusals::refusal, crate::specs::Inner::Head::judged_answer))]
fn judged_size(
    mps: u32,
    h: Head,
    fault: Result<(), Refusal>,
    n: usize,
    room: usize,
) -> Result<usize, Refusal>
    ensures { result ≡ judged_answer mps h fault n room }
{
    let held = data_bytes(h.packet_type, h.length);
    if n != held {
        return Err(Refusal::SizeMismatch);
    }
    if (mps as usize) < held {
        return Err(Refusal::OverMaxPayload);
    }
    fault?;
    let size = whole_size(h);
    if room < size {
        return Err(Refusal::OutputTooShort);
    }
    Ok(size)
}

// Header and payload over the front of the output; returns their size.
fn put_front(h: Head, payload: &[u8], out: &mut [u8]) -> usize
    requires { length (head_bytes h ++ payload.now) ≤ length out.old }
    ensures { (result ≡ length (head_bytes h ++ payload.now))
        × (out.new ≡ put 0 (head_bytes h ++ payload.now) out.old) }
{
    let n = put::put_words(front_word(h), h.words, is_wide(h.packet_type), out);
    put::put_at(n, payload, out)
}

// Header, payload and digest over the front of the output.
fn put_packet(h: Head, payload: &[u8], out: &mut [u8])
    requires { length (head_bytes h ++ (payload.now ++ head_digest h)) ≤ length out.old }
    ensures { out.new
        ≡ over_front (head_bytes h ++ (payload.now ++ head_digest h)) out.old }
{
    let n = put_front(h, payload, out);
    put::put_digest(h.has_digest, h.digest, n, out);
}

// The packet of a head, whose settings are judged and whose first of the rows 6 to 8 is fault.
fn write_judged(
    mps: u32,
    h: Head,
    fault: Result<(), Refusal>,
    payload: &[u8],
    out: &mut [u8],
) -> Result<usize, Refusal>
    ensures value { result ≡ judged_answer mps h fault (length payload.now) (length out.old) }
    ensures out_after { out.new ≡ judged_out mps h fault payload.now out.old }
{
    let size = judged_size(mps, h, fault, payload.len(), out.len())?;
    put_packet(h, payload, out);
    Ok(size)
}

// The packet that a head stands for, over the front of the output, for who knows that the settings are listed and no
// field of the packet has a row of 6 at its first place: the rows 3, 5, 6 to 8 and 12 are looked at.
pub fn write_head(mps: u32, h: Head, payload: &[u8], out: &mut [u8]) -> Result<usize, Refusal>
    ensures value { result ≡ head_answer mps h (length payload.now) (length out.old) }
    ensures out_after { out.new ≡ head_out mps h payload.now out.old }
{
    write_judged(mps, h, listed_fault(h.fault), payload, out)
}

// The packet over the front of the output, for who knows that no row of its fields holds: of the rows 3, 5 and 12 alone
// are looked at.
pub fn lay_packet(mps: u32, p: Packet, payload: &[u8], out: &mut [u8]) -> Result<usize, Refusal>
    ensures value { result ≡ lay_answer mps p (length payload.now) (length out.old) }
    ensures out_after { out.new ≡ lay_out mps p payload.now out.old }
{
    write_judged(mps, head_of(p), Ok(()), payload, out)
}

// The packet over the front of the output, or the first refusal that is given, with the output as it was. The size is
// answered.
pub fn write(
    settings: Settings,
    p: Packet,
    payload: &[u8],
    out: &mut [u8],
) -> Result<usize, Refusal>
    ensures value { result ≡ write_packet settings p (length payload.now) (length out.old) }
    ensures out_after { out.new ≡ write_out settings p payload.now out.old }
{
    field_fault(settings, p)?;
    write_head(settings.mps, head_of(p), payload, out)
}
