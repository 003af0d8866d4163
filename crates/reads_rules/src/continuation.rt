// Which completions continue a read.
ghost use Rattle.std.specs.Prelude.{◌≡◌, ◌+◌, ◌*◌, ◌%◌, ◌^◌, ◌<◌, ◌-◌, eqb};
ghost use Rattle.bits.specs.Choice.{pick};
ghost use Rattle.byte_enables.specs.Enables.{off, trail};
ghost use Rattle.reads_rules.specs.Continuations.{byte_count_at, lower_address_at, cut_allowed, legal, succeeds};
ghost use Rattle.reads_rules.specs.Continuations.{status_bad, differs, reported};

use crate::origin::Origin;
use crate::piece::Piece;
use crate::read::Read;
use byte_enables::{Access, off_of, trail_of};

// The doublewords of a request from doubleword p on.
fn rest_of(a: Access, p: u32) -> u32
    ensures { result ≡ a.length - p }
{
    a.length.saturating_sub(p)
}

// The bytes before the first enabled one: only the piece at the read's start has them.
fn off_at(a: Access, p: u32) -> u32
    ensures { result ≡ pick (eqb p 0) (off a) 0 }
{
    if p == 0 { off_of(a) } else { 0 }
}

// The Byte Count of a piece at doubleword p, where off bytes stand before the first enabled one.
fn count_from(a: Access, p: u32, off: u32) -> u64
    ensures { result ≡ 4 * (a.length - p) - (off + trail a) }
{
    let all = 4 * u64::from(rest_of(a, p));
    all.saturating_sub(u64::from(off) + u64::from(trail_of(a)))
}

// The Lower Address likewise. An address may be the last of 64 bits, so it is reduced before it is added to.
fn lower_from(a: Access, p: u32, off: u32) -> u64
    ensures { result ≡ (a.address + 4 * p + off) % 128 }
{
    (a.address % 128 + 4 * u64::from(p) + u64::from(off)) % 128
}

// The Byte Count that a piece at doubleword p must have.
pub fn byte_count_at(a: Access, p: u32) -> u64
    ensures { result ≡ byte_count_at a p }
{
    count_from(a, p, off_at(a, p))
}

// The Lower Address that a piece at doubleword p must have.
pub fn lower_address_at(a: Access, p: u32) -> u64
    ensures { result ≡ lower_address_at a p }
{
    lower_from(a, p, off_at(a, p))
}

// Whether address + bytes is a multiple of m.
fn on_multiple(m: u64, address: u64, bytes: u64) -> bool
    requires { (0 < m) × (m < 2 ^ 32) }
    ensures { result ≡ eqb ((address + bytes) % m) 0 }
{
    (address % m + bytes % m) % m == 0
}

// Whether address + bytes is a multiple of the read completion boundary. The listed ones are powers of two, which are
// not divided by.
fn on_boundary(rcb: u32, address: u64, bytes: u64) -> bool
    ensures { result ≡ eqb ((address + bytes) % rcb) 0 }
{
    match rcb {
        64 => on_multiple(64, address, bytes),
        128 => on_multiple(128, address, bytes),
        0 => address == 0 && bytes == 0,
        _ => on_multiple(u64::from(rcb), address, bytes),
    }
}

// Whether a piece of n doublewords may stand at doubleword p.
#[tactic(auto, unfolding(crate::specs::Continuations::cut_allowed))]
pub fn cut_allowed(rcb: u32, a: Access, p: u32, n: u32) -> bool
    ensures { result ≡ cut_allowed rcb a p n }
{
    let rest = rest_of(a, p);
    1 <= n
        && n <= rest
        && (n == rest || on_boundary(rcb, a.address, 4 * u64::from(p) + 4 * u64::from(n)))
}

// Whether a completion legally continues a read. What stands before the first enabled byte is asked once, for both
// fields.
#[tactic(auto, using(crate::proofs::ContinuationLaws::count_of, crate::proofs::ContinuationLaws::lower_of), unfolding(crate::specs::Continuations::legal))]
pub fn legal(o: Origin, r: Read, c: Piece) -> bool
    ensures { result ≡ legal o r c }
{
    let a = r.request.access;
    let p = r.taken;
    let off = off_at(a, p);
    cut_allowed(o.settings.rcb, a, p, c.length)
        && u64::from(c.header.byte_count) == count_from(a, p, off)
        && u64::from(c.header.lower_address) == lower_from(a, p, off)
}

// Whether the status is 000.
pub fn succeeds(c: Piece) -> bool
    ensures { result ≡ succeeds c }
{
    c.header.status == 0b000
}

// What 32 is given for.
#[tactic(auto, unfolding(crate::specs::Continuations::status_bad))]
pub fn status_bad(c: Piece) -> bool
    ensures { result ≡ status_bad c }
{
    c.header.byte_count_modified || c.header.status == 0b010 || c.with_data != succeeds(c)
}

// What 31 is given for.
#[tactic(auto, unfolding(crate::specs::Continuations::differs))]
pub fn differs(r: Read, c: Piece) -> bool
    ensures { result ≡ differs r c }
{
    c.traffic_class != r.request.traffic_class || c.attributes != r.request.attributes
}

// The status that Failed answers.
#[tactic(auto, unfolding(crate::specs::Continuations::reported))]
pub fn reported(status: u8) -> u8
    ensures { result ≡ reported status }
{
    if status == 0b100 { status } else { 0b001 }
}
