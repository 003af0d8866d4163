// Whether a table may hold an open read, and what is still owed of it.
ghost use Rattle.std.specs.Prelude.{◌≡◌};
ghost use Rattle.reads_rules.specs.Validity.{valid_read, owed_of};
ghost use Rattle.reads_rules.specs.Inner.Faults.{reach_bad, read_faults};

use crate::read::Read;
use crate::request::{ReadRequest, fields_over};
use crate::window::{STORE_LIMIT, over_request_size, place_bad};
use byte_enables::enables_allowed;
use tlp::content::crosses_page;
use tlp::settings::Settings;

// 8, 22, 23 and 7, with the longest store.
fn reach_bad(settings: Settings, q: ReadRequest) -> bool
    ensures { result ≡ reach_bad settings q }
{
    crosses_page(q.access)
        || over_request_size(settings, q)
        || place_bad(q, STORE_LIMIT)
        || !enables_allowed(q.access)
}

// What no valid record has. Of the length nothing is asked: one that p is below and that stays within its page is 1
// to 1024.
#[tactic(auto, unfolding(crate::specs::Inner::Faults::read_faults))]
fn read_bad(settings: Settings, r: Read) -> bool
    ensures { result ≡ read_faults settings r }
{
    let q = r.request;
    fields_over(q)
        || q.access.address % 4 != 0
        || q.access.length <= r.taken
        || reach_bad(settings, q)
}

// Whether open would accept the read's fields, with the longest store, and part of it is still owed.
pub fn valid_read(settings: Settings, r: Read) -> bool
    ensures { result ≡ valid_read settings r }
{
    !read_bad(settings, r)
}

// The doublewords still owed.
#[tactic(auto, unfolding(crate::specs::Validity::owed_of))]
pub fn owed_of(r: Read) -> u32
    ensures { result ≡ owed_of r }
{
    r.request.access.length.saturating_sub(r.taken)
}
