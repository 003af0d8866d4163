// The record of the packet in accepted bytes, laid straight over what is lent for it: no packet is made.
ghost use Rattle.std.specs.Prelude.{◌≡◌, false, [], ◌∷◌, ◌++◌, ◌+◌, ◌≤◌, length};
ghost use Rattle.bits.specs.Word.{bytes};
ghost use Rattle.bits.specs.Put.{put};
ghost use Rattle.tlp.specs.PacketTypes.{is_unlisted};
ghost use Rattle.tlp_read.specs.Fields.{digest_word, message_route_at};
ghost use Rattle.tlp_read.specs.Inner.Rows.{family_at, Listed, HeaderThere, address_read};
ghost use Rattle.tlp_record.specs.Places.{record_size, kind_place, route_value_place, message_bytes_place, digest_place, byte_count_place};
ghost use Rattle.tlp_record.specs.Places.{extended_register_place};
ghost use Rattle.tlp_record.specs.Record.{route_case, route_value, sizes_part};
ghost use Rattle.tlp_record_read.specs.Inner.Lay.{front_read, data_flag, kind_read, length_given, request_part, counted_part, registers_part, status_part, record_laid};

use bits::word::{byte_at, bytes16, bytes32, bytes64};
use tlp::packet_type::{Family, data_follows, is_wide};
use tlp::size::{digest_at, length_at};
use tlp_read::fields::{
    address32_at, all_attributes_at, byte_count_field_at, byte_count_modified_at, code_at,
    completer_at, completion_tag_at, digest_word, extended_register_at, first_enables_at,
    last_enables_at, low_attributes_at, lower_address_field_at, poisoned_at, register_at,
    requester_at, route_id_at, routing_at, status_at, tag_at, traffic_class_at, whole_body_at,
};
use tlp_record::places::{
    BYTE_COUNT, DIGEST, EXTENDED_REGISTER, KIND, LENGTH, MESSAGE_BYTES, RECORD_SIZE, ROUTE_VALUE,
};

// What the first eight bytes have of the kind.
#[derive(Clone, Copy, Debug, PartialEq, Eq)]
pub struct Front {
    pub kind: u8,
    pub attributes: u8,
    pub route: u8,
    pub tag: u8,
    pub code: u8,
}

// Digest and length, read before anything is laid, and so only once.
#[derive(Clone, Copy, Debug, PartialEq, Eq)]
pub struct Sizes {
    pub digest: u32,
    pub length: u32,
}

// Lays eight bytes over a record from index at on.
fn lay(at: usize, part: [u8; 8], record: &mut [u8; RECORD_SIZE])
    requires { at + 8 ≤ record_size }
    ensures { «record».new ≡ put at part «record».old }
{
    record[at..at + 8].copy_from_slice(&part);
}

// Lays a number's four bytes.
fn lay_number(at: usize, n: u32, record: &mut [u8; RECORD_SIZE])
    requires { at + 4 ≤ record_size }
    ensures { «record».new ≡ put at (bytes 4 n) «record».old }
{
    record[at..at + 4].copy_from_slice(&bytes32(n));
}

// The route's value, and a message's body.
fn lay_value(value: u64, body: u64, record: &mut [u8; RECORD_SIZE])
    ensures { «record».new
        ≡ put message_bytes_place (bytes 8 body) (put route_value_place (bytes 8 value) «record».old) }
{
    lay(ROUTE_VALUE, bytes64(value), record);
    lay(MESSAGE_BYTES, bytes64(body), record);
}

// Digest and length.
fn lay_sizes(sizes: Sizes, record: &mut [u8; RECORD_SIZE])
    ensures { «record».new ≡ put digest_place (sizes_part sizes.digest sizes.length) «record».old }
{
    lay_number(DIGEST, sizes.digest, record);
    lay_number(LENGTH, sizes.length, record);
}

// Byte count, the sender's ID and the enables.
fn lay_count(count: u32, id: u16, first: u8, last: u8, record: &mut [u8; RECORD_SIZE])
    ensures { «record».new
        ≡ put byte_count_place (bytes 4 count ++ (bytes 2 id ++ (first ∷ last ∷ []))) «record».old }
{
    let x = bytes32(count);
    let y = bytes16(id);
    lay(
        BYTE_COUNT,
        [x[0], x[1], x[2], x[3], y[0], y[1], first, last],
        record,
    );
}

// ---- the parts, from the bytes

// Kind to code, the first eight bytes.
fn lay_front(f: Front, packet: &[u8], record: &mut [u8; RECORD_SIZE])
    ensures { «record».new ≡ put kind_place (front_read f packet.now) «record».old }
{
    let traffic_class = traffic_class_at(packet);
    let poisoned = u8::from(poisoned_at(packet));
    let digest = u8::from(digest_at(packet));
    lay(
        KIND,
        [
            f.kind,
            traffic_class,
            f.attributes,
            poisoned,
            digest,
            f.route,
            f.tag,
            f.code,
        ],
        record,
    );
}

// Kinds with data come after those without. They are bytes, as record.txt gives them to C hosts.
fn kind_from(base: u8, packet: &[u8]) -> u8
    requires room { base ≤ 11 }
    requires listed { Listed packet.now }
    ensures { result ≡ base + data_flag packet.now }
{
    base + u8::from(data_follows(byte_at(packet, 0)))
}

// The length differs by family, the digest does not.
fn sizes_of(length: u32, packet: &[u8]) -> Sizes
    ensures digest { result.digest ≡ digest_word packet.now }
    ensures length { result.length ≡ length }
{
    Sizes {
        digest: digest_word(packet),
        length,
    }
}

// Digest and length, then requester and enables.
fn lay_request(sizes: Sizes, packet: &[u8], record: &mut [u8; RECORD_SIZE])
    ensures { «record».new
        ≡ put byte_count_place (request_part packet.now)
        (put digest_place (sizes_part sizes.digest sizes.length) «record».old) }
{
    let first = first_enables_at(packet);
    let last = last_enables_at(packet);
    lay_sizes(sizes, record);
    lay_count(0, requester_at(packet), first, last, record);
}

// The bytes of an address, its two low bits left out: no number is made of them. No method of Accepted: of a slice in a
// struct the check knew no bounds of its bytes.
fn lay_address(packet: &[u8], record: &mut [u8; RECORD_SIZE])
    requires memory { family_at packet.now ≡ Family.Memory }
    requires header_there { HeaderThere packet.now }
    ensures { «record».new
        ≡ put route_value_place (bytes 8 (address_read packet.now)) «record».old }
{
    let p = packet;
    if is_wide(byte_at(p, 0)) {
        let last = p[15] / 4 * 4;
        lay(
            ROUTE_VALUE,
            [p[8], p[9], p[10], p[11], p[12], p[13], p[14], last],
            record,
        );
    } else {
        let last = p[11] / 4 * 4;
        lay(ROUTE_VALUE, [0, 0, 0, 0, p[8], p[9], p[10], last], record);
    }
}

// Type 4 or 5, read or write.
fn config_kind(packet: &[u8]) -> u8
    requires { family_at packet.now ≡ Family.Config }
    ensures { result ≡ kind_read packet.now }
{
    kind_from(5 + byte_at(packet, 0) % 2 * 2, packet)
}

fn lay_registers(packet: &[u8], record: &mut [u8; RECORD_SIZE])
    ensures { «record».new
        ≡ put extended_register_place (registers_part packet.now) «record».old }
{
    let extended = extended_register_at(packet);
    let register = register_at(packet);
    lay(
        EXTENDED_REGISTER,
        [extended, register, 0, 0, 0, 0, 0, 0],
        record,
    );
}

// Msg and Cpl have no length.
fn length_given(packet: &[u8]) -> u32
    requires { Listed packet.now }
    ensures { result ≡ length_given packet.now }
{
    if data_follows(byte_at(packet, 0)) {
        length_at(packet)
    } else {
        0
    }
}

// The record's byte for a message's route, as record.txt gives it to C hosts.
#[tactic(auto, unfolding(tlp_read::specs::Fields::message_route_at, tlp_read::specs::Fields::implicit_at))]
fn message_case(packet: &[u8]) -> u8
    ensures { result ≡ route_case (message_route_at packet.now) }
{
    match routing_at(packet) {
        1 => 0,
        2 => 1,
        3 => 3,
        4 => 4,
        5 => 5,
        _ => 2,
    }
}

// The address or the ID that a message goes by.
#[tactic(auto, unfolding(tlp_read::specs::Fields::message_route_at))]
fn message_value(packet: &[u8]) -> u64
    requires { 16 ≤ length packet.now }
    ensures { result ≡ route_value (message_route_at packet.now) }
{
    match routing_at(packet) {
        1 => whole_body_at(packet),
        2 => u64::from(route_id_at(packet)),
        _ => 0,
    }
}

// Digest and length, then byte count and the sender's ID; no enables.
fn lay_counted(sizes: Sizes, count: u32, id: u16, record: &mut [u8; RECORD_SIZE])
    ensures { «record».new
        ≡ put byte_count_place (counted_part count id)
        (put digest_place (sizes_part sizes.digest sizes.length) «record».old) }
{
    lay_sizes(sizes, record);
    lay_count(count, id, 0, 0, record);
}

fn lay_status(packet: &[u8], record: &mut [u8; RECORD_SIZE])
    ensures { «record».new
        ≡ put extended_register_place (status_part packet.now) «record».old }
{
    let status = status_at(packet);
    let modified = u8::from(byte_count_modified_at(packet));
    let lower = lower_address_field_at(packet);
    lay(
        EXTENDED_REGISTER,
        [0, 0, status, modified, lower, 0, 0, 0],
        record,
    );
}

// ---- the families: each has its own kinds and parts

// The bytes of a packet whose header is there whole. Each method asks for its own family: a field for it would leave as
// many clauses.
#[derive(Clone, Copy)]
pub(crate) struct Accepted<'a> {
    pub(crate) packet: &'a [u8],
    ghost header_there: { HeaderThere packet.now },
}

impl<'a> Accepted<'a> {
    fn put_memory(self, record: &mut [u8; RECORD_SIZE])
        requires memory { family_at self.packet.now ≡ Family.Memory }
        ensures { «record».new ≡ record_laid self.entry.packet.now «record».old }
    {
        let sizes = sizes_of(length_at(self.packet), self.packet);
        let front = Front {
            kind: kind_from(1, self.packet),
            attributes: all_attributes_at(self.packet),
            route: 0,
            tag: tag_at(self.packet),
            code: 0,
        };
        lay_front(front, self.packet, record);
        lay_address(self.packet, record);
        lay(MESSAGE_BYTES, [0; 8], record);
        lay_request(sizes, self.packet, record);
        lay(EXTENDED_REGISTER, [0; 8], record);
    }

    fn put_io(self, record: &mut [u8; RECORD_SIZE])
        requires io { family_at self.packet.now ≡ Family.Io }
        ensures { «record».new ≡ record_laid self.entry.packet.now «record».old }
    {
        let sizes = sizes_of(length_at(self.packet), self.packet);
        let front = Front {
            kind: kind_from(3, self.packet),
            attributes: low_attributes_at(self.packet),
            route: 0,
            tag: tag_at(self.packet),
            code: 0,
        };
        lay_front(front, self.packet, record);
        lay_value(address32_at(self.packet), 0, record);
        lay_request(sizes, self.packet, record);
        lay(EXTENDED_REGISTER, [0; 8], record);
    }

    fn put_config(self, record: &mut [u8; RECORD_SIZE])
        requires config { family_at self.packet.now ≡ Family.Config }
        ensures { «record».new ≡ record_laid self.entry.packet.now «record».old }
    {
        let sizes = sizes_of(length_at(self.packet), self.packet);
        let front = Front {
            kind: config_kind(self.packet),
            attributes: low_attributes_at(self.packet),
            route: 1,
            tag: tag_at(self.packet),
            code: 0,
        };
        lay_front(front, self.packet, record);
        lay_value(u64::from(route_id_at(self.packet)), 0, record);
        lay_request(sizes, self.packet, record);
        lay_registers(self.packet, record);
    }

    fn put_message(self, record: &mut [u8; RECORD_SIZE])
        requires message { family_at self.packet.now ≡ Family.Message }
        ensures { «record».new ≡ record_laid self.entry.packet.now «record».old }
    {
        let sizes = sizes_of(length_given(self.packet), self.packet);
        let front = Front {
            kind: kind_from(9, self.packet),
            attributes: all_attributes_at(self.packet),
            route: message_case(self.packet),
            tag: tag_at(self.packet),
            code: code_at(self.packet),
        };
        lay_front(front, self.packet, record);
        lay_value(
            message_value(self.packet),
            whole_body_at(self.packet),
            record,
        );
        lay_counted(sizes, 0, requester_at(self.packet), record);
        lay(EXTENDED_REGISTER, [0; 8], record);
    }

    fn put_completion(self, record: &mut [u8; RECORD_SIZE])
        requires completion { family_at self.packet.now ≡ Family.Completion }
        ensures { «record».new ≡ record_laid self.entry.packet.now «record».old }
    {
        let sizes = sizes_of(length_given(self.packet), self.packet);
        let front = Front {
            kind: kind_from(11, self.packet),
            attributes: all_attributes_at(self.packet),
            route: 1,
            tag: completion_tag_at(self.packet),
            code: 0,
        };
        lay_front(front, self.packet, record);
        lay_value(u64::from(route_id_at(self.packet)), 0, record);
        let count = byte_count_field_at(self.packet);
        lay_counted(sizes, count, completer_at(self.packet), record);
        lay_status(self.packet, record);
    }

    pub(crate) fn put_record(self, f: Family, record: &mut [u8; RECORD_SIZE])
        requires own_family { f ≡ family_at self.packet.now }
        requires listed { is_unlisted f ≡ false }
        ensures { «record».new ≡ record_laid self.entry.packet.now «record».old }
    {
        match f {
            Family::Memory => self.put_memory(record),
            Family::Io => self.put_io(record),
            Family::Config => self.put_config(record),
            Family::Message => self.put_message(record),
            Family::Completion => self.put_completion(record),
            Family::Unlisted => {}
        }
    }
}
