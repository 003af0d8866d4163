// Byte enables of a request. `as`, not u64::from, in both counts of enabled bytes: with it the check did not find them.
#![tactic(auto)]

ghost use Rattle.std.specs.Prelude.{◌≡◌};
ghost use Rattle.bits.specs.Choice.{one_of};
ghost use Rattle.byte_enables.specs.Enables.{first_kinds, last_kinds, enables_allowed, off, ending, trail, enables_at, enabled, enabled_bytes};

// What the rules for enables look at: one request's address, its length in doublewords, and the enables of its first
// and last doubleword.
#[derive(Clone, Copy, Debug, PartialEq, Eq)]
pub struct Access {
    pub address: u64,
    pub length: u32,
    pub first: u8,
    pub last: u8,
}

fn first_kind(n: u8) -> bool
    ensures { result ≡ one_of first_kinds n }
{
    matches!(n, 0b1111 | 0b1110 | 0b1100 | 0b1000)
}

fn last_kind(n: u8) -> bool
    ensures { result ≡ one_of last_kinds n }
{
    matches!(n, 0b1111 | 0b0111 | 0b0011 | 0b0001)
}

// Whether a request of this length may have these enables.
#[tactic(auto, unfolding(crate::specs::Enables::enables_allowed))]
pub fn enables_allowed(a: Access) -> bool
    ensures { result ≡ enables_allowed a }
{
    match a.length {
        1 => a.last == 0b0000,
        2 => a.first != 0b0000 && a.last != 0b0000,
        _ => first_kind(a.first) && last_kind(a.last),
    }
}

// How many bytes into the window the first enabled one stands.
#[tactic(auto, unfolding(crate::specs::Enables::off))]
pub fn off_of(a: Access) -> u32
    ensures { result ≡ off a }
{
    if a.first % 16 == 0b0000 {
        0
    } else {
        bits::count::clear_below(a.first)
    }
}

// The enables of the last doubleword.
fn ending_of(a: Access) -> u8
    ensures { result ≡ ending a }
{
    if a.length == 1 { a.first } else { a.last }
}

// How many bytes before the window's end the last enabled one stands.
#[tactic(auto, unfolding(crate::specs::Enables::trail))]
pub fn trail_of(a: Access) -> u32
    ensures { result ≡ trail a }
{
    let n = ending_of(a);
    if n % 16 == 0b0000 {
        3
    } else {
        bits::count::clear_above(n)
    }
}

// The enables of doubleword i of a request.
#[tactic(auto, unfolding(crate::specs::Enables::enables_at))]
pub fn enables_at(a: Access, i: u32) -> u8
    ensures { result ≡ enables_at a i }
{
    if a.length <= i {
        0b0000
    } else if i == 0 {
        a.first % 16
    } else if i + 1 == a.length {
        a.last % 16
    } else {
        0b1111
    }
}

// Whether byte k of the window is enabled.
#[tactic(auto, unfolding(crate::specs::Enables::enabled, crate::specs::Enables::enables_at))]
pub fn enabled_at(a: Access, k: u64) -> bool
    ensures { result ≡ enabled a k }
{
    let i = k / 4;
    i < u64::from(a.length) && (enables_at(a, i as u32) >> (k % 4)) % 2 == 1
}

// The enabled bytes of the first m doublewords: every byte, but for those clear at the two ends.
fn enabled_below(a: Access, m: u64) -> u64
    ensures { result ≡ enabled_bytes a 0 m }
{
    let n = a.length as u64;
    let first = bits::count::set_bits(a.first) as u64;
    if m == 0 || n == 0 {
        0
    } else if m < n {
        first + 4 * (m - 1)
    } else if n == 1 {
        first
    } else {
        first + 4 * (n - 2) + bits::count::set_bits(a.last) as u64
    }
}

// The enabled bytes of n doublewords from doubleword p on.
pub fn enabled_bytes(a: Access, p: u32, n: u32) -> u64
    ensures { result ≡ enabled_bytes a p n }
{
    let from = p as u64;
    enabled_below(a, from + n as u64) - enabled_below(a, from)
}
