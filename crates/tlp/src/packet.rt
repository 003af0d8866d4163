// What a packet holds. It has no TH, no AT and no choice of memory form.
ghost use Rattle.std.specs.Prelude.{◌≡◌};
ghost use Rattle.tlp.specs.Packets.{address_of, id_of, memory_form, type_of, access_at, length_alone, access_of};

use crate::packet_type::PacketType;
use byte_enables::Access;

// Where an implicitly routed message goes: routing 000, 011, 100, 101.
#[derive(Clone, Copy, Debug, PartialEq, Eq)]
pub enum Implicit {
    Root,
    Broadcast,
    Local,
    Gathered,
}

// Memory and I/O go by address, configuration by target ID, completions by requester ID, messages by their routing.
#[derive(Clone, Copy, Debug, PartialEq, Eq)]
pub enum Route {
    Address(u64),
    Id(u16),
    Implicit(Implicit),
}

// A memory or I/O request; its address is the route.
#[derive(Clone, Copy, Debug, PartialEq, Eq)]
pub struct Request {
    pub requester: u16,
    pub tag: u8,
    pub length: u32,
    pub first: u8,
    pub last: u8,
}

// A configuration request; its target is the route.
#[derive(Clone, Copy, Debug, PartialEq, Eq)]
pub struct ConfigRequest {
    pub request: Request,
    pub extended_register: u8,
    pub register: u8,
}

// A message; body is bytes 8 to 15, carried whole.
#[derive(Clone, Copy, Debug, PartialEq, Eq)]
pub struct MessageRequest {
    pub requester: u16,
    pub tag: u8,
    pub code: u8,
    pub body: u64,
}

// A completion; its requester is the route.
#[derive(Clone, Copy, Debug, PartialEq, Eq)]
pub struct CompletionHeader {
    pub completer: u16,
    pub status: u8,
    pub byte_count_modified: bool,
    pub byte_count: u32,
    pub tag: u8,
    pub lower_address: u8,
}

// What a packet is, with the fields that only packets of that kind have.
#[derive(Clone, Copy, Debug, PartialEq, Eq)]
pub enum Kind {
    MemoryRead(Request),
    MemoryWrite(Request),
    IoRead(Request),
    IoWrite(Request),
    ConfigRead0(ConfigRequest),
    ConfigWrite0(ConfigRequest),
    ConfigRead1(ConfigRequest),
    ConfigWrite1(ConfigRequest),
    Message(MessageRequest),
    MessageData {
        message: MessageRequest,
        length: u32,
    },
    Completion(CompletionHeader),
    CompletionData {
        completion: CompletionHeader,
        length: u32,
    },
}

// What reading gives and writing takes.
#[derive(Clone, Copy, Debug, PartialEq, Eq)]
pub struct Packet {
    pub traffic_class: u8,
    pub attributes: u8,
    pub poisoned: bool,
    // TD; the digest is 0 where it is clear. No Option: a digest without TD must be one, the writer refuses it by 6.
    pub has_digest: bool,
    pub digest: u32,
    pub route: Route,
    pub kind: Kind,
}

// The address of a route; 0 where it has none, which is what document 01's rows look at: no Option. One function with
// id_of would answer a u64, cut for an ID.
pub fn address_of(r: Route) -> u64
    ensures { result ≡ address_of r }
{
    match r {
        Route::Address(a) => a,
        Route::Id(_) | Route::Implicit(_) => 0,
    }
}

// The ID of a route; 0 where it has none, likewise.
pub fn id_of(r: Route) -> u16
    ensures { result ≡ id_of r }
{
    match r {
        Route::Id(i) => i,
        Route::Address(_) | Route::Implicit(_) => 0,
    }
}

// The 32-bit form for addresses below 4 GiB, the 64-bit form for others.
pub fn memory_form(address: u64, narrow: PacketType, wide: PacketType) -> PacketType
    ensures { result ≡ memory_form address narrow wide }
{
    if address < 4294967296 { narrow } else { wide }
}

// The type that a packet is written as.
#[tactic(auto, unfolding(crate::specs::Packets::type_of))]
pub fn type_of(p: Packet) -> PacketType
    ensures { result ≡ type_of p }
{
    let a = address_of(p.route);
    match p.kind {
        Kind::MemoryRead(_) => memory_form(a, PacketType::MRd32, PacketType::MRd64),
        Kind::MemoryWrite(_) => memory_form(a, PacketType::MWr32, PacketType::MWr64),
        Kind::IoRead(_) => PacketType::IORd,
        Kind::IoWrite(_) => PacketType::IOWr,
        Kind::ConfigRead0(_) => PacketType::CfgRd0,
        Kind::ConfigWrite0(_) => PacketType::CfgWr0,
        Kind::ConfigRead1(_) => PacketType::CfgRd1,
        Kind::ConfigWrite1(_) => PacketType::CfgWr1,
        Kind::Message(_) => PacketType::Msg,
        Kind::MessageData { .. } => PacketType::MsgD,
        Kind::Completion(_) => PacketType::Cpl,
        Kind::CompletionData { .. } => PacketType::CplD,
    }
}

// A request's stretch, with an address.
pub fn access_at(address: u64, q: Request) -> Access
    ensures { result ≡ access_at address q }
{
    Access {
        address,
        length: q.length,
        first: q.first,
        last: q.last,
    }
}

// A length alone.
fn length_alone(length: u32) -> Access
    ensures { result ≡ length_alone length }
{
    Access {
        address: 0,
        length,
        first: 0,
        last: 0,
    }
}

// Address, length and enables of a packet, each 0 where its kind has none.
#[tactic(auto, unfolding(crate::specs::Packets::access_of))]
pub fn access_of(p: Packet) -> Access
    ensures { result ≡ access_of p }
{
    let address = address_of(p.route);
    match p.kind {
        Kind::MemoryRead(q) | Kind::MemoryWrite(q) | Kind::IoRead(q) | Kind::IoWrite(q) => {
            access_at(address, q)
        }
        Kind::ConfigRead0(q)
        | Kind::ConfigWrite0(q)
        | Kind::ConfigRead1(q)
        | Kind::ConfigWrite1(q) => access_at(address, q.request),
        Kind::Message(_) | Kind::Completion(_) => length_alone(0),
        Kind::MessageData { length, .. } | Kind::CompletionData { length, .. } => {
            length_alone(length)
        }
    }
}
