// Where each field of a header stands, each place in one function; then what the bytes of a packet hold.
ghost use Rattle.std.specs.Prelude.{◌≡◌, ◌-◌, ◌≤◌, length, drop};
ghost use Rattle.bits.specs.Word.{word, whole_word};
ghost use Rattle.tlp_read.specs.Fields.{traffic_class_at, low_attributes_at, all_attributes_at, attributes_at, hint_at, address_type_at, poisoned_at, digest_word};
ghost use Rattle.tlp_read.specs.Fields.{requester_at, tag_at, first_enables_at, last_enables_at, address_at, route_id_at, extended_register_at, register_at, code_at, body_at, routing_at};
ghost use Rattle.tlp_read.specs.Fields.{completer_at, status_at, byte_count_modified_at, byte_count_field_at, completion_tag_at, lower_address_field_at};
ghost use Rattle.tlp_read.specs.Fields.{request_at, config_at, message_at, completion_at, implicit_at, message_route_at, route_at, kind_at, packet_at};
ghost use Rattle.tlp_read.specs.Inner.Rows.{family_at, HeaderThere, address_read};

use bits::word::{byte_at, join16, whole64, word16, word32, word64};
use tlp::packet::{
    CompletionHeader, ConfigRequest, Implicit, Kind, MessageRequest, Packet, Request, Route,
};
use tlp::packet_type::{Family, PacketType, family_of, is_io_or_config, is_wide};
use tlp::size::{digest_at, length_at, or_most};

// TC.
pub fn traffic_class_at(bytes: &[u8]) -> u8
    ensures { result ≡ traffic_class_at bytes.now }
{
    byte_at(bytes, 1) / 16 % 8
}

// Attr[1:0].
pub fn low_attributes_at(bytes: &[u8]) -> u8
    ensures { result ≡ low_attributes_at bytes.now }
{
    byte_at(bytes, 2) / 16 % 4
}

// Attr[2:0].
pub fn all_attributes_at(bytes: &[u8]) -> u8
    ensures { result ≡ all_attributes_at bytes.now }
{
    byte_at(bytes, 1) / 4 % 2 * 4 + low_attributes_at(bytes)
}

// Attr[2] is reserved in I/O and configuration.
#[tactic(auto, unfolding(crate::specs::Fields::attributes_at))]
fn attributes_at(t: PacketType, bytes: &[u8]) -> u8
    ensures { result ≡ attributes_at t bytes.now }
{
    if is_io_or_config(family_of(t)) {
        low_attributes_at(bytes)
    } else {
        all_attributes_at(bytes)
    }
}

// TH.
#[tactic(auto, unfolding(crate::specs::Fields::hint_at))]
pub(crate) fn hint_at(bytes: &[u8]) -> bool
    ensures { result ≡ hint_at bytes.now }
{
    byte_at(bytes, 1) % 2 == 1
}

// AT.
pub(crate) fn address_type_at(bytes: &[u8]) -> u8
    ensures { result ≡ address_type_at bytes.now }
{
    byte_at(bytes, 2) / 4 % 4
}

// EP.
#[tactic(auto, unfolding(crate::specs::Fields::poisoned_at))]
pub fn poisoned_at(bytes: &[u8]) -> bool
    ensures { result ≡ poisoned_at bytes.now }
{
    byte_at(bytes, 2) / 64 % 2 == 1
}

// The last four bytes.
fn trailing_word(bytes: &[u8]) -> u32
    ensures { result ≡ word 4 (drop (length bytes.now - 4) bytes.now) 0 }
{
    word32(&bytes[bytes.len().saturating_sub(4)..], 0)
}

// The digest, 0 where there is none.
#[tactic(auto, unfolding(crate::specs::Fields::digest_word))]
pub fn digest_word(bytes: &[u8]) -> u32
    ensures { result ≡ digest_word bytes.now }
{
    if digest_at(bytes) {
        trailing_word(bytes)
    } else {
        0
    }
}

// The requester ID of a request or a message.
pub fn requester_at(bytes: &[u8]) -> u16
    ensures { result ≡ requester_at bytes.now }
{
    word16(bytes, 4)
}

// The tag of a request or a message.
pub fn tag_at(bytes: &[u8]) -> u8
    ensures { result ≡ tag_at bytes.now }
{
    byte_at(bytes, 6)
}

// The enables of the first doubleword.
pub fn first_enables_at(bytes: &[u8]) -> u8
    ensures { result ≡ first_enables_at bytes.now }
{
    byte_at(bytes, 7) % 16
}

// The enables of the last doubleword.
pub fn last_enables_at(bytes: &[u8]) -> u8
    ensures { result ≡ last_enables_at bytes.now }
{
    byte_at(bytes, 7) / 16 % 16
}

// The address of a 32-bit form.
pub fn address32_at(bytes: &[u8]) -> u64
    ensures { result ≡ address_at 4 bytes.now }
{
    u64::from(word32(bytes, 8)) / 4 * 4
}

fn address64_at(bytes: &[u8]) -> u64
    ensures { result ≡ address_at 8 bytes.now }
{
    word64(bytes, 8) / 4 * 4
}

// The address of a memory request, with one look at the length for all eight bytes.
pub(crate) fn memory_address(bytes: &[u8]) -> u64
    requires is_memory { family_at bytes.now ≡ Family.Memory }
    requires header_there { HeaderThere bytes.now }
    ensures { result ≡ address_read bytes.now }
{
    if is_wide(byte_at(bytes, 0)) {
        whole64(bytes, 8) / 4 * 4
    } else {
        address32_at(bytes)
    }
}

// The ID that a packet goes by: target ID, or the requester ID of a completion.
pub fn route_id_at(bytes: &[u8]) -> u16
    ensures { result ≡ route_id_at bytes.now }
{
    word16(bytes, 8)
}

// The extended register of a configuration request.
pub fn extended_register_at(bytes: &[u8]) -> u8
    ensures { result ≡ extended_register_at bytes.now }
{
    byte_at(bytes, 10) % 16
}

// The register of a configuration request.
pub fn register_at(bytes: &[u8]) -> u8
    ensures { result ≡ register_at bytes.now }
{
    byte_at(bytes, 11) / 4 % 64
}

// A message's code.
pub fn code_at(bytes: &[u8]) -> u8
    ensures { result ≡ code_at bytes.now }
{
    byte_at(bytes, 7)
}

// A message's bytes 8 to 15.
fn body_at(bytes: &[u8]) -> u64
    ensures { result ≡ body_at bytes.now }
{
    word64(bytes, 8)
}

// The same where they are all there, with one look at the length; else 0.
pub fn whole_body_at(bytes: &[u8]) -> u64
    ensures value { result ≡ whole_word 8 bytes.now 8 }
    ensures where_there { 16 ≤ length bytes.now → result ≡ body_at bytes.now }
{
    whole64(bytes, 8)
}

// A message's routing.
pub fn routing_at(bytes: &[u8]) -> u8
    ensures { result ≡ routing_at bytes.now }
{
    byte_at(bytes, 0) % 8
}

// The completer ID of a completion.
pub fn completer_at(bytes: &[u8]) -> u16
    ensures { result ≡ completer_at bytes.now }
{
    word16(bytes, 4)
}

// A completion's status.
pub fn status_at(bytes: &[u8]) -> u8
    ensures { result ≡ status_at bytes.now }
{
    byte_at(bytes, 6) / 32 % 8
}

// BCM.
#[tactic(auto, unfolding(crate::specs::Fields::byte_count_modified_at))]
pub fn byte_count_modified_at(bytes: &[u8]) -> bool
    ensures { result ≡ byte_count_modified_at bytes.now }
{
    byte_at(bytes, 6) / 16 % 2 == 1
}

// A completion's Byte Count.
#[tactic(auto, unfolding(crate::specs::Fields::byte_count_field_at))]
pub fn byte_count_field_at(bytes: &[u8]) -> u32
    ensures { result ≡ byte_count_field_at bytes.now }
{
    let n = join16(byte_at(bytes, 6) % 16, byte_at(bytes, 7));
    or_most(4096, u32::from(n))
}

// A completion's tag.
pub fn completion_tag_at(bytes: &[u8]) -> u8
    ensures { result ≡ completion_tag_at bytes.now }
{
    byte_at(bytes, 10)
}

// A completion's Lower Address.
pub fn lower_address_field_at(bytes: &[u8]) -> u8
    ensures { result ≡ lower_address_field_at bytes.now }
{
    byte_at(bytes, 11) % 128
}

// ---- the packet

#[tactic(auto, unfolding(crate::specs::Fields::request_at))]
fn request_at(bytes: &[u8]) -> Request
    ensures { result ≡ request_at bytes.now }
{
    Request {
        requester: requester_at(bytes),
        tag: tag_at(bytes),
        length: length_at(bytes),
        first: first_enables_at(bytes),
        last: last_enables_at(bytes),
    }
}

#[tactic(auto, unfolding(crate::specs::Fields::config_at))]
fn config_at(bytes: &[u8]) -> ConfigRequest
    ensures { result ≡ config_at bytes.now }
{
    ConfigRequest {
        request: request_at(bytes),
        extended_register: extended_register_at(bytes),
        register: register_at(bytes),
    }
}

#[tactic(auto, unfolding(crate::specs::Fields::message_at))]
fn message_at(bytes: &[u8]) -> MessageRequest
    ensures { result ≡ message_at bytes.now }
{
    MessageRequest {
        requester: requester_at(bytes),
        tag: tag_at(bytes),
        code: code_at(bytes),
        body: body_at(bytes),
    }
}

#[tactic(auto, unfolding(crate::specs::Fields::completion_at))]
fn completion_at(bytes: &[u8]) -> CompletionHeader
    ensures { result ≡ completion_at bytes.now }
{
    CompletionHeader {
        completer: completer_at(bytes),
        status: status_at(bytes),
        byte_count_modified: byte_count_modified_at(bytes),
        byte_count: byte_count_field_at(bytes),
        tag: completion_tag_at(bytes),
        lower_address: lower_address_field_at(bytes),
    }
}

#[tactic(auto, unfolding(crate::specs::Fields::implicit_at))]
fn implicit_at(routing: u8) -> Implicit
    ensures { result ≡ implicit_at routing }
{
    match routing {
        3 => Implicit::Broadcast,
        4 => Implicit::Local,
        5 => Implicit::Gathered,
        _ => Implicit::Root,
    }
}

#[tactic(auto, unfolding(crate::specs::Fields::message_route_at))]
fn message_route_at(bytes: &[u8]) -> Route
    ensures { result ≡ message_route_at bytes.now }
{
    match routing_at(bytes) {
        1 => Route::Address(body_at(bytes)),
        2 => Route::Id(route_id_at(bytes)),
        routing => Route::Implicit(implicit_at(routing)),
    }
}

#[tactic(auto, unfolding(crate::specs::Fields::route_at))]
fn route_at(t: PacketType, bytes: &[u8]) -> Route
    ensures { result ≡ route_at t bytes.now }
{
    match t {
        PacketType::MRd64 | PacketType::MWr64 => Route::Address(address64_at(bytes)),
        PacketType::MRd32 | PacketType::MWr32 | PacketType::IORd | PacketType::IOWr => {
            Route::Address(address32_at(bytes))
        }
        PacketType::CfgRd0
        | PacketType::CfgWr0
        | PacketType::CfgRd1
        | PacketType::CfgWr1
        | PacketType::Cpl
        | PacketType::CplD => Route::Id(route_id_at(bytes)),
        PacketType::Msg | PacketType::MsgD => message_route_at(bytes),
        PacketType::Unlisted => Route::Implicit(Implicit::Root),
    }
}

#[tactic(auto, unfolding(crate::specs::Fields::kind_at))]
fn kind_at(t: PacketType, bytes: &[u8]) -> Kind
    ensures { result ≡ kind_at t bytes.now }
{
    match t {
        PacketType::MRd32 | PacketType::MRd64 => Kind::MemoryRead(request_at(bytes)),
        PacketType::MWr32 | PacketType::MWr64 => Kind::MemoryWrite(request_at(bytes)),
        PacketType::IORd => Kind::IoRead(request_at(bytes)),
        PacketType::IOWr => Kind::IoWrite(request_at(bytes)),
        PacketType::CfgRd0 => Kind::ConfigRead0(config_at(bytes)),
        PacketType::CfgWr0 => Kind::ConfigWrite0(config_at(bytes)),
        PacketType::CfgRd1 => Kind::ConfigRead1(config_at(bytes)),
        PacketType::CfgWr1 => Kind::ConfigWrite1(config_at(bytes)),
        PacketType::Msg => Kind::Message(message_at(bytes)),
        PacketType::MsgD => Kind::MessageData {
            message: message_at(bytes),
            length: length_at(bytes),
        },
        PacketType::Cpl | PacketType::Unlisted => Kind::Completion(completion_at(bytes)),
        PacketType::CplD => Kind::CompletionData {
            completion: completion_at(bytes),
            length: length_at(bytes),
        },
    }
}

// The packet in bytes of type t.
#[tactic(auto, unfolding(crate::specs::Fields::packet_at))]
pub(crate) fn packet_at(t: PacketType, bytes: &[u8]) -> Packet
    ensures { result ≡ packet_at t bytes.now }
{
    Packet {
        traffic_class: traffic_class_at(bytes),
        attributes: attributes_at(t, bytes),
        poisoned: poisoned_at(bytes),
        has_digest: digest_at(bytes),
        digest: digest_word(bytes),
        route: route_at(t, bytes),
        kind: kind_at(t, bytes),
    }
}
