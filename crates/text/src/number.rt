// Numbers in a base, the highest digit first.
// The digit is widened by `as`, not u64::from: with it the check did not find the next turn of number_in.
ghost use Rattle.std.specs.Prelude.{◌≡◌, ◌+◌, ◌*◌, ◌<◌, ◌≤◌, length, nat_lt};
ghost use Rattle.bits.specs.Put.{put};
ghost use Rattle.text.specs.Base.{base_value};
ghost use Rattle.text.specs.Laid.{laid, after};
ghost use Rattle.text.specs.Number.{plain, number_in, digits, digit_count, plain_text};

use crate::hex::{hex_digit, hex_value};
use crate::output::room;

// The most that 8, 32 and 64 bits hold.
pub const MOST_8: u64 = u8::MAX as u64;

pub const MOST_32: u64 = u32::MAX as u64;

pub const MOST_64: u64 = u64::MAX;

// The bases in which numbers are read and printed.
#[derive(Clone, Copy, Debug, PartialEq, Eq)]
pub(crate) enum Base {
    Ten,
    Sixteen,
}

impl Base {
    fn value(self) -> u64
        ensures value { result ≡ base_value self }
        ensures bounds { (1 < result) × (result ≤ 16) }
    {
        match self {
            Base::Ten => 10,
            Base::Sixteen => 16,
        }
    }
}

// Whether a text has no leading zero.
pub(crate) fn is_plain(text: &[u8]) -> bool
    ensures { result ≡ plain text.now }
{
    text.len() < 2 || hex_value(text[0]) != 0
}

// Whether v with the digit d after it is above most, for numbers of any size.
fn exceeds(v: u64, base: u64, d: u64, most: u64) -> bool
    requires { 0 < base }
    ensures { result ≡ nat_lt most (v * base + d) }
{
    most < d || (most - d) / base < v
}

// The number that a text spells in a base, where it is not above most.
pub(crate) fn number_in(text: &[u8], base: Base, most: u64) -> Option<u64>
    ensures { result ≡ number_in (base_value base) most text.now }
{
    let base = base.value();
    if text.is_empty() {
        return None;
    }
    // v is what the digits before spell.
    let mut v: u64 = 0;
    for b in text {
        let d = hex_value(*b) as u64;
        if base <= d || exceeds(v, base, d, most) {
            return None;
        }
        v = v * base + d;
    }
    Some(v)
}

// How many digits n has.
fn digit_count(n: u64, base: u64) -> usize
    requires { 1 < base }
    ensures { result ≡ digit_count base n }
{
    // m is n without its k - 1 lowest digits; k counts the divisions, and indexes nothing.
    let mut m = n;
    let mut k: usize = 1;
    while base <= m {
        m /= base;
        k += 1;
    }
    k
}

// The w lowest digits of n, the lowest first, and the index after the last of them.
fn lay_digits(n: u64, base: u64, w: usize, at: usize, out: &mut [u8]) -> usize
    requires { (0 < base) × ((base ≤ 16) × (at + w ≤ length out.old)) }
    ensures value { result ≡ at + w }
    ensures out_after { out.new ≡ put at (digits base w n) out.old }
{
    // m is what is left of n; its digits go before index i, the lowest first, so i goes down with m.
    let mut m = n;
    let mut i = at + w;
    while at < i {
        i -= 1;
        out[i] = hex_digit((m % base % 16) as u8);
        m /= base;
    }
    at + w
}

// The w lowest digits of n, laid into out from index at on, and the index after them;
// at and nothing laid where they do not fit.
pub(crate) fn put_digits(n: u64, base: Base, w: usize, at: usize, out: &mut [u8]) -> usize
    ensures value { result ≡ after at (digits (base_value base) w n) out.old }
    ensures out_after { out.new ≡ laid at (digits (base_value base) w n) out.old }
{
    if !room(at, w, out.len()) {
        return at;
    }
    lay_digits(n, base.value(), w, at, out)
}

// The same with as many digits as n has.
pub(crate) fn put_plain(n: u64, base: Base, at: usize, out: &mut [u8]) -> usize
    ensures value { result ≡ after at (plain_text (base_value base) n) out.old }
    ensures out_after { out.new ≡ laid at (plain_text (base_value base) n) out.old }
{
    let w = digit_count(n, base.value());
    put_digits(n, base, w, at, out)
}
