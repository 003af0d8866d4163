// All that writing needs to know of a packet beside its payload.
ghost use Rattle.std.specs.Prelude.{◌≡◌, [], ◌∷◌};
ghost use Rattle.bits.specs.Word.{bytes};
ghost use Rattle.tlp_write.specs.Layout.{routing, routing_in};
ghost use Rattle.tlp_write.specs.Inner.Head.{listed_fault, IsHead, head_front};

use crate::words::{Words, own_words};
use tlp::content::fault_of;
use tlp::packet::{Implicit, Kind, Packet, Route, access_of, type_of};
use tlp::packet_type::{PacketType, family_of, first_byte};
use tlp::refusal::{Refusal, number_in};

#[derive(Clone, Copy, Debug, PartialEq, Eq)]
pub struct Head {
    pub packet_type: PacketType,
    // What byte 0 has beside the type: a message's routing.
    pub routing: u8,
    // The first of the rows 6 to 8 that holds; any other number is none.
    pub fault: u32,
    pub words: Words,
    pub traffic_class: u8,
    pub attributes: u8,
    pub poisoned: bool,
    // As in the packet: no Option, since the digest is given where TD is clear, too.
    pub has_digest: bool,
    pub digest: u32,
    pub length: u32,
}

// No other fault than those of the rows 6 to 8 is handed on. A number, no Refusal: what a public function is given
// stays as it was.
#[tactic(auto, unfolding(tlp::specs::Refusals::refusal))]
pub(crate) fn listed_fault(fault: u32) -> Result<(), Refusal>
    ensures { result ≡ listed_fault fault }
{
    match fault {
        6 => Err(Refusal::BadField),
        7 => Err(Refusal::BadEnables),
        8 => Err(Refusal::Crosses4K),
        _ => Ok(()),
    }
}

fn routing_of(r: Route) -> u8
    ensures { result ≡ routing r }
{
    match r {
        Route::Address(_) => 1,
        Route::Id(_) => 2,
        Route::Implicit(Implicit::Root) => 0,
        Route::Implicit(Implicit::Broadcast) => 3,
        Route::Implicit(Implicit::Local) => 4,
        Route::Implicit(Implicit::Gathered) => 5,
    }
}

#[tactic(auto, unfolding(crate::specs::Layout::routing_in))]
fn routing_in(r: Route, k: Kind) -> u8
    ensures { result ≡ routing_in r k }
{
    match k {
        Kind::Message(_) | Kind::MessageData { .. } => routing_of(r),
        Kind::MemoryRead(_)
        | Kind::MemoryWrite(_)
        | Kind::IoRead(_)
        | Kind::IoWrite(_)
        | Kind::ConfigRead0(_)
        | Kind::ConfigWrite0(_)
        | Kind::ConfigRead1(_)
        | Kind::ConfigWrite1(_)
        | Kind::Completion(_)
        | Kind::CompletionData { .. } => 0,
    }
}

pub(crate) fn head_of(p: Packet) -> Head
    ensures { IsHead result p }
{
    let packet_type = type_of(p);
    let access = access_of(p);
    Head {
        packet_type,
        routing: routing_in(p.route, p.kind),
        fault: number_in(fault_of(
            family_of(packet_type),
            access,
            p.traffic_class,
            p.attributes,
            0,
        )),
        words: own_words(p.route, p.kind),
        traffic_class: p.traffic_class,
        attributes: p.attributes,
        poisoned: p.poisoned,
        has_digest: p.has_digest,
        digest: p.digest,
        length: access.length,
    }
}

fn word_of_bytes(a: u8, b: u8, c: u8, d: u8) -> u32
    ensures { bytes 4 result ≡ (a ∷ b ∷ c ∷ d ∷ []) }
{
    u32::from_be_bytes([a, b, c, d])
}

// Bytes 0 to 3.
pub(crate) fn front_word(h: Head) -> u32
    ensures { bytes 4 result ≡ head_front h }
{
    let b0 = first_byte(h.packet_type) + h.routing % 8;
    let high = (h.length / 256 % 4) as u8;
    let flags = u8::from(h.has_digest) * 128 + u8::from(h.poisoned) * 64;
    word_of_bytes(
        b0,
        h.traffic_class % 8 * 16 + h.attributes / 4 % 2 * 4,
        flags + h.attributes % 4 * 16 + high,
        (h.length % 256) as u8,
    )
}
