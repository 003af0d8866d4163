// What is looked at alike in the record of every kind. Numbers are read where they are looked at: one load for all of
// their bytes.
ghost use Rattle.std.specs.Prelude.{◌≡◌};
ghost use Rattle.bits.specs.Word.{byte, word};
ghost use Rattle.tlp_record.specs.Places.{poisoned_place, digest_present_place, route_place, route_value_place};
ghost use Rattle.tlp_record_write.specs.Inner.Shared.{flags_kept, route_kept, common_over, shared_fits};

use crate::place::{eight, four};
use tlp_record::places::{
    ATTRIBUTES, DIGEST, DIGEST_PRESENT, POISONED, RECORD_SIZE, ROUTE, ROUTE_VALUE, TRAFFIC_CLASS,
};

fn flags_kept(record: &[u8; RECORD_SIZE]) -> bool
    ensures { result
        ≡ flags_kept (byte «record».now poisoned_place) (byte «record».now digest_present_place) }
{
    record[POISONED] <= 1 && record[DIGEST_PRESENT] <= 1
}

fn route_kept(record: &[u8; RECORD_SIZE]) -> bool
    ensures { result
        ≡ route_kept (byte «record».now route_place) (word 8 «record».now route_value_place) }
{
    match record[ROUTE] {
        0 => true,
        1 => eight(record, ROUTE_VALUE) < 65536,
        2..=5 => eight(record, ROUTE_VALUE) == 0,
        _ => false,
    }
}

// With TD clear the digest is 0, else the writer gives 6.
fn common_over(record: &[u8; RECORD_SIZE]) -> bool
    ensures { result ≡ common_over «record».now }
{
    8 <= record[TRAFFIC_CLASS]
        || 8 <= record[ATTRIBUTES]
        || record[DIGEST_PRESENT] != 1 && four(record, DIGEST) != 0
}

#[tactic(auto, unfolding(crate::specs::Inner::Shared::shared_fits))]
pub(crate) fn shared_fits(record: &[u8; RECORD_SIZE]) -> bool
    ensures { result ≡ shared_fits «record».now }
{
    flags_kept(record) && route_kept(record) && !common_over(record)
}
