// A completion as it arrives.
ghost use Rattle.std.specs.Prelude.{◌≡◌};
ghost use Rattle.reads_rules.specs.Pieces.{no_header, header_in, piece_of};

use tlp::packet::{CompletionHeader, Kind, Packet, access_of, id_of, type_of};
use tlp::packet_type::has_data;

// What a packet says as a completion; with_data tells CplD from Cpl. A Cpl has length 0, a number that the rules ask
// about, so the two are no Option.
#[derive(Clone, Copy, Debug, PartialEq, Eq)]
pub struct Piece {
    pub requester: u16,
    pub traffic_class: u8,
    pub attributes: u8,
    pub poisoned: bool,
    pub with_data: bool,
    pub length: u32,
    pub header: CompletionHeader,
}

// What header_in gives for a packet that is no completion.
fn no_header() -> CompletionHeader
    ensures { result ≡ no_header }
{
    CompletionHeader {
        completer: 0,
        status: 0,
        byte_count_modified: false,
        byte_count: 0,
        tag: 0,
        lower_address: 0,
    }
}

// The fields that only completions have.
fn header_in(k: Kind) -> CompletionHeader
    ensures { result ≡ header_in k }
{
    match k {
        Kind::Completion(c)
        | Kind::CompletionData {
            completion: c,
            length: _,
        } => c,
        _ => no_header(),
    }
}

// The packet as a completion.
#[tactic(auto, unfolding(crate::specs::Pieces::piece_of))]
pub fn piece_of(p: Packet) -> Piece
    ensures { result ≡ piece_of p }
{
    Piece {
        requester: id_of(p.route),
        traffic_class: p.traffic_class,
        attributes: p.attributes,
        poisoned: p.poisoned,
        with_data: has_data(type_of(p)),
        length: access_of(p).length,
        header: header_in(p.kind),
    }
}
