// A memory read as open is asked for it, and the refusals that the writer gives for its header.
ghost use Rattle.std.specs.Prelude.{◌≡◌};
ghost use Rattle.tlp.specs.Rows.{first};
ghost use Rattle.tlp.specs.Refusals.{checked};
ghost use Rattle.reads_rules.specs.Requests.{request_packet, given_bad, request_rows};
ghost use Rattle.reads_rules.specs.Inner.Faults.{fields_over};

use byte_enables::Access;
use tlp::content::memory_fault;
use tlp::packet::{Kind, Packet, Request, Route};
use tlp::refusal::Refusal;
use tlp_writable::outside_of;

// What open gets of a read: address, length and enables, traffic class, attributes, and where its window starts in
// the store.
#[derive(Clone, Copy, Debug, PartialEq, Eq)]
pub struct ReadRequest {
    pub access: Access,
    pub traffic_class: u8,
    pub attributes: u8,
    pub start: u64,
}

// The packet whose header open writes.
pub fn request_packet(requester: u16, tag: u8, q: ReadRequest) -> Packet
    ensures { result ≡ request_packet requester tag q }
{
    let a = q.access;
    Packet {
        traffic_class: q.traffic_class,
        attributes: q.attributes,
        poisoned: false,
        has_digest: false,
        digest: 0,
        route: Route::Address(a.address),
        kind: Kind::MemoryRead(Request {
            requester,
            tag,
            length: a.length,
            first: a.first,
            last: a.last,
        }),
    }
}

// Whether a number other than address and length exceeds its field.
pub(crate) fn fields_over(q: ReadRequest) -> bool
    ensures { result ≡ fields_over q }
{
    8 <= q.traffic_class || 8 <= q.attributes || 16 <= q.access.first || 16 <= q.access.last
}

// The writer's first place for 6.
#[tactic(auto, using(crate::proofs::RequestLaws::given_law))]
fn given_bad(q: ReadRequest) -> bool
    ensures { result ≡ given_bad q }
{
    fields_over(q) || outside_of(1024, q.access.length) || q.access.address % 4 != 0
}

// The first of 6, 7 and 8 that holds.
#[tactic(auto, unfolding(tlp::specs::Rows::first, tlp::specs::Refusals::refusal, tlp::specs::Contents::enables_bad, tlp::specs::Contents::page_bad))]
pub fn request_fault(q: ReadRequest) -> Result<(), Refusal>
    ensures { result ≡ checked (first (request_rows q)) }
{
    if given_bad(q) {
        return Err(Refusal::BadField);
    }
    memory_fault(q.access)
}
