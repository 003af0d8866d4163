// Rows 6 to 8 of the number table, over decoded values.
ghost use Rattle.std.specs.Prelude.{◌≡◌};
ghost use Rattle.tlp.specs.Rows.{first};
ghost use Rattle.tlp.specs.Refusals.{checked};
ghost use Rattle.tlp.specs.Contents.{not_plain, ruled_as_one, crosses_page, fault_rows};
ghost use Rattle.tlp.specs.Inner.Contents.{memory_rows, register_rows};

use crate::packet_type::Family;
use crate::refusal::Refusal;
use byte_enables::{Access, enables_allowed};

// What I/O and configuration must not have: a length that is not 1, or traffic class, Attr[1:0] or AT not 0.
#[tactic(auto, unfolding(crate::specs::Contents::not_plain))]
pub fn not_plain(length: u32, traffic_class: u8, attributes: u8, at: u8) -> bool
    ensures { result ≡ not_plain length traffic_class attributes at }
{
    length != 1 || traffic_class != 0 || attributes % 4 != 0 || at != 0
}

// I/O and configuration follow the rules of length 1.
fn ruled_as_one(a: Access) -> Access
    ensures { result ≡ ruled_as_one a }
{
    Access { length: 1, ..a }
}

// Whether a memory request runs over the end of its page of 4096 bytes.
pub fn crosses_page(a: Access) -> bool
    ensures { result ≡ crosses_page a }
{
    4096 < a.address % 4096 + 4 * u64::from(a.length)
}

// The first that holds of the rows 7 and 8 of a memory request.
#[tactic(auto, unfolding(crate::specs::Rows::first, crate::specs::Refusals::refusal))]
pub fn memory_fault(a: Access) -> Result<(), Refusal>
    ensures { result ≡ checked (first (memory_rows a)) }
{
    if !enables_allowed(a) {
        return Err(Refusal::BadEnables);
    }
    if crosses_page(a) {
        return Err(Refusal::Crosses4K);
    }
    Ok(())
}

// The first that holds of the rows 6 and 7 of I/O and configuration.
#[tactic(auto, unfolding(crate::specs::Rows::first, crate::specs::Refusals::refusal))]
pub fn register_fault(a: Access, traffic_class: u8, attributes: u8, at: u8) -> Result<(), Refusal>
    ensures { result ≡ checked (first (register_rows a traffic_class attributes at)) }
{
    if not_plain(a.length, traffic_class, attributes, at) {
        return Err(Refusal::BadField);
    }
    if !enables_allowed(ruled_as_one(a)) {
        return Err(Refusal::BadEnables);
    }
    Ok(())
}

// The first of the rows 6 to 8 that holds.
#[tactic(auto, unfolding(crate::specs::Rows::first, crate::specs::Contents::plain_bad, crate::specs::Contents::enables_bad, crate::specs::Contents::page_bad))]
pub fn fault_of(
    f: Family,
    a: Access,
    traffic_class: u8,
    attributes: u8,
    at: u8,
) -> Result<(), Refusal>
    ensures { result ≡ checked (first (fault_rows f a traffic_class attributes at)) }
{
    match f {
        Family::Memory => memory_fault(a),
        Family::Io | Family::Config => register_fault(a, traffic_class, attributes, at),
        Family::Message | Family::Completion | Family::Unlisted => Ok(()),
    }
}
