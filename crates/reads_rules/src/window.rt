// Where the bytes of a read go: its window in the store. A start is any number, so no sum is made of it.
ghost use Rattle.std.specs.Prelude.{◌≡◌, ◌+◌, ◌*◌, ltb};
ghost use Rattle.tlp.specs.Rows.{first};
ghost use Rattle.tlp.specs.Refusals.{checked};
ghost use Rattle.reads_rules.specs.Windows.{place_bad, place_rows, shares_byte, holds_window};

use crate::request::ReadRequest;
use tlp::refusal::Refusal;
use tlp::settings::Settings;

// The most bytes that a store may have.
pub const STORE_LIMIT: u64 = 65536;

// The window's size in bytes.
fn window_size(q: ReadRequest) -> u64
    ensures { result ≡ 4 * q.access.length }
{
    4 * u64::from(q.access.length)
}

// Whether a place lies before the end of what starts at from and has size bytes.
fn before_end(place: u64, from: u64, size: u64) -> bool
    ensures { result ≡ ltb place (from + size) }
{
    place < from || place - from < size
}

// Whether 4 x length is over MRRS.
pub(crate) fn over_request_size(settings: Settings, q: ReadRequest) -> bool
    ensures { result ≡ ltb settings.mrrs (4 * q.access.length) }
{
    u64::from(settings.mrrs) < window_size(q)
}

// What 23 is given for, with a store of room bytes.
#[tactic(auto, unfolding(crate::specs::Windows::place_bad))]
pub(crate) fn place_bad(q: ReadRequest, room: u64) -> bool
    ensures { result ≡ place_bad q room }
{
    STORE_LIMIT < room || q.start % 4 != 0 || before_end(room, q.start, window_size(q))
}

// The first of 22 and 23 that holds, with a store of room bytes.
#[tactic(auto, unfolding(tlp::specs::Rows::first, tlp::specs::Refusals::refusal))]
pub fn place_fault(settings: Settings, q: ReadRequest, room: u64) -> Result<(), Refusal>
    ensures { result ≡ checked (first (place_rows settings q room)) }
{
    if over_request_size(settings, q) {
        return Err(Refusal::OverMaxReadRequest);
    }
    if place_bad(q, room) {
        return Err(Refusal::BadWindow);
    }
    Ok(())
}

// Whether the windows of two reads share a byte.
#[tactic(auto, unfolding(crate::specs::Windows::shares_byte))]
pub fn shares_byte(q: ReadRequest, r: ReadRequest) -> bool
    ensures { result ≡ shares_byte q r }
{
    before_end(q.start, r.start, window_size(r)) && before_end(r.start, q.start, window_size(q))
}

// Whether a store of room bytes is within its limit and holds the window.
#[tactic(auto, unfolding(crate::specs::Windows::holds_window))]
pub fn holds_window(q: ReadRequest, room: u64) -> bool
    ensures { result ≡ holds_window q room }
{
    room <= STORE_LIMIT && !before_end(room, q.start, window_size(q))
}
