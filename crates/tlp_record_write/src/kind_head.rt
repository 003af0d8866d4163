// What a record's kind decides: whether it can be written, and the part of its head that not every kind has alike. One
// branch by kind for both.
ghost use Rattle.std.specs.Prelude.{◌≡◌, true};
ghost use Rattle.bits.specs.Word.{byte};
ghost use Rattle.tlp_record.specs.Record.{request_in, config_in, message_in, completion_in, record_packet};
ghost use Rattle.tlp_record.specs.Places.{kind_place, route_place};
ghost use Rattle.tlp_write.specs.Inner.Head.{IsHead};
ghost use Rattle.tlp_record_write.specs.Inner.Shared.{shared_fits};
ghost use Rattle.tlp_record_write.specs.Inner.KindHead.{memory_type, config_type, case_routing, KindCase, IsKindHead, JudgedHead};

use crate::kinds::{completion_fits, config_fits, io_fits, memory_fits, message_fits};
use crate::place::{eight, four, two};
use tlp::content::{memory_fault, register_fault};
use tlp::packet::{
    CompletionHeader, ConfigRequest, MessageRequest, Request, access_at, memory_form,
};
use tlp::packet_type::PacketType;
use tlp::refusal::{Refusal, number_in};
use tlp_record::places::{
    ATTRIBUTES, BYTE_COUNT, BYTE_COUNT_MODIFIED, DIGEST, DIGEST_PRESENT, EXTENDED_REGISTER,
    FIRST_ENABLES, KIND, LAST_ENABLES, LENGTH, LOWER_ADDRESS, MESSAGE_BYTES, MESSAGE_CODE,
    POISONED, RECORD_SIZE, REGISTER, ROUTE, ROUTE_ID, ROUTE_VALUE, SOURCE_ID, STATUS, TAG,
    TRAFFIC_CLASS,
};
use tlp_write::head::Head;
use tlp_write::words::{
    Words, completion_words, config_words, io_words, memory_words, message_words,
};

#[derive(Clone, Copy, Debug, PartialEq, Eq)]
pub struct KindHead {
    pub packet_type: PacketType,
    pub routing: u8,
    pub fault: Result<(), Refusal>,
    pub words: Words,
}

#[tactic(auto, unfolding(tlp_record::specs::Record::request_in))]
fn request_in(record: &[u8; RECORD_SIZE]) -> Request
    ensures { result ≡ request_in «record».now }
{
    Request {
        requester: two(record, SOURCE_ID),
        tag: record[TAG],
        length: four(record, LENGTH),
        first: record[FIRST_ENABLES],
        last: record[LAST_ENABLES],
    }
}

#[tactic(auto, unfolding(tlp_record::specs::Record::config_in))]
fn config_in(record: &[u8; RECORD_SIZE]) -> ConfigRequest
    ensures { result ≡ config_in «record».now }
{
    ConfigRequest {
        request: request_in(record),
        extended_register: record[EXTENDED_REGISTER],
        register: record[REGISTER],
    }
}

#[tactic(auto, unfolding(tlp_record::specs::Record::message_in))]
fn message_in(record: &[u8; RECORD_SIZE]) -> MessageRequest
    ensures { result ≡ message_in «record».now }
{
    MessageRequest {
        requester: two(record, SOURCE_ID),
        tag: record[TAG],
        code: record[MESSAGE_CODE],
        body: eight(record, MESSAGE_BYTES),
    }
}

// Most of what is written are completions: with calls left on their way, writing takes a tenth longer.
#[inline(always)]
#[tactic(auto, unfolding(tlp_record::specs::Record::completion_in))]
fn completion_in(record: &[u8; RECORD_SIZE]) -> CompletionHeader
    ensures { result ≡ completion_in «record».now }
{
    CompletionHeader {
        completer: two(record, SOURCE_ID),
        status: record[STATUS],
        byte_count_modified: record[BYTE_COUNT_MODIFIED] == 1,
        byte_count: four(record, BYTE_COUNT),
        tag: record[TAG],
        lower_address: record[LOWER_ADDRESS],
    }
}

fn memory_type(address: u64, record: &[u8; RECORD_SIZE]) -> PacketType
    ensures { result ≡ memory_type (byte «record».now kind_place) address }
{
    if record[KIND] == 1 {
        memory_form(address, PacketType::MRd32, PacketType::MRd64)
    } else {
        memory_form(address, PacketType::MWr32, PacketType::MWr64)
    }
}

fn config_type(record: &[u8; RECORD_SIZE]) -> PacketType
    ensures { result ≡ config_type (byte «record».now kind_place) }
{
    match record[KIND] {
        5 => PacketType::CfgRd0,
        6 => PacketType::CfgWr0,
        7 => PacketType::CfgRd1,
        _ => PacketType::CfgWr1,
    }
}

fn memory_head(record: &[u8; RECORD_SIZE]) -> Option<KindHead>
    requires { KindCase 1 2 «record».now }
    ensures { JudgedHead result «record».now }
{
    if !memory_fits(record) {
        return None;
    }
    let q = request_in(record);
    let address = eight(record, ROUTE_VALUE);
    Some(KindHead {
        packet_type: memory_type(address, record),
        routing: 0,
        fault: memory_fault(access_at(address, q)),
        words: memory_words(address, q),
    })
}

fn io_head(record: &[u8; RECORD_SIZE]) -> Option<KindHead>
    requires { KindCase 3 4 «record».now }
    ensures { JudgedHead result «record».now }
{
    if !io_fits(record) {
        return None;
    }
    let q = request_in(record);
    let address = eight(record, ROUTE_VALUE);
    let access = access_at(address, q);
    Some(KindHead {
        packet_type: if record[KIND] == 3 {
            PacketType::IORd
        } else {
            PacketType::IOWr
        },
        routing: 0,
        fault: register_fault(access, record[TRAFFIC_CLASS], record[ATTRIBUTES], 0),
        words: io_words(address, q),
    })
}

fn config_head(record: &[u8; RECORD_SIZE]) -> Option<KindHead>
    requires { KindCase 5 8 «record».now }
    ensures { JudgedHead result «record».now }
{
    if !config_fits(record) {
        return None;
    }
    let q = config_in(record);
    let access = access_at(0, q.request);
    Some(KindHead {
        packet_type: config_type(record),
        routing: 0,
        fault: register_fault(access, record[TRAFFIC_CLASS], record[ATTRIBUTES], 0),
        words: config_words(two(record, ROUTE_ID), q),
    })
}

// A message's routing, by the case of its route. Routes are bytes, as record.txt gives them to C hosts.
fn case_routing(record: &[u8; RECORD_SIZE]) -> u8
    ensures { result ≡ case_routing (byte «record».now route_place) }
{
    match record[ROUTE] {
        1 => 2,
        2 => 0,
        n @ 3..=5 => n,
        _ => 1,
    }
}

fn message_head(record: &[u8; RECORD_SIZE]) -> Option<KindHead>
    requires { KindCase 9 10 «record».now }
    ensures { JudgedHead result «record».now }
{
    if !message_fits(record[KIND] == 10, record) {
        return None;
    }
    Some(KindHead {
        packet_type: if record[KIND] == 10 {
            PacketType::MsgD
        } else {
            PacketType::Msg
        },
        routing: case_routing(record),
        fault: Ok(()),
        words: message_words(message_in(record)),
    })
}

#[inline(always)]
fn completion_head(record: &[u8; RECORD_SIZE]) -> Option<KindHead>
    requires { KindCase 11 12 «record».now }
    ensures { JudgedHead result «record».now }
{
    if !completion_fits(record[KIND] == 12, record) {
        return None;
    }
    Some(KindHead {
        packet_type: if record[KIND] == 12 {
            PacketType::CplD
        } else {
            PacketType::Cpl
        },
        routing: 0,
        fault: Ok(()),
        words: completion_words(two(record, ROUTE_ID), completion_in(record)),
    })
}

// None where the record can't be written. Kinds are bytes, as record.txt gives them to C hosts.
pub(crate) fn kind_head_in(record: &[u8; RECORD_SIZE]) -> Option<KindHead>
    requires { shared_fits «record».now ≡ true }
    ensures { JudgedHead result «record».now }
{
    match record[KIND] {
        1..=2 => memory_head(record),
        3..=4 => io_head(record),
        5..=8 => config_head(record),
        9..=10 => message_head(record),
        11..=12 => completion_head(record),
        _ => None,
    }
}

// With what every kind has alike.
#[tactic(auto, using(tlp_write::proofs::WriteLaws::faults_numbered), unfolding(tlp_record::specs::Record::record_packet))]
pub(crate) fn whole_head(k: KindHead, record: &[u8; RECORD_SIZE]) -> Head
    requires { IsKindHead k «record».now }
    ensures { IsHead result (record_packet «record».now) }
{
    Head {
        packet_type: k.packet_type,
        routing: k.routing,
        fault: number_in(k.fault),
        words: k.words,
        traffic_class: record[TRAFFIC_CLASS],
        attributes: record[ATTRIBUTES],
        poisoned: record[POISONED] == 1,
        has_digest: record[DIGEST_PRESENT] == 1,
        digest: four(record, DIGEST),
        length: four(record, LENGTH),
    }
}
