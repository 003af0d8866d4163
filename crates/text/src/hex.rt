// Hexadecimal in lower case: digits, numbers and bytes.
ghost use Rattle.std.specs.Prelude.{◌≡◌, ◌+◌, ◌*◌, ◌/◌, ◌%◌, ◌<◌, ◌≤◌, true, length, take, slice_index};
ghost use Rattle.text.specs.Digit.{hex_value, hex_digit, all_digits};
ghost use Rattle.bits.specs.Put.{put};
ghost use Rattle.text.specs.Laid.{laid, after};
ghost use Rattle.text.specs.Number.{digits};
ghost use Rattle.text.specs.Hex.{hex_number, hex_plain, hex_plain_text, hex_text};
ghost use Rattle.text.specs.Hex.{pairs, bytes_spelled, spelled_answer, spelled_over, front_answer, front_over};

use crate::number::{Base, MOST_64, is_plain, number_in, put_digits, put_plain};
use crate::output::room;

// The value of a digit, 16 for a byte that is none: a number, no Option, so that a loop over bytes has no branch.
// No other function looks at letters.
// What stands below the first letter wraps around to above the last:
// with so few tests a loop looks at many bytes at once.
pub fn hex_value(b: u8) -> u8
    ensures { result ≡ hex_value b }
{
    let letter = 10 + b.wrapping_sub(b'a').min(6);
    let number = b.wrapping_sub(b'0');
    if number < 10 { number } else { letter }
}

// The digit of n % 16, as its letter.
pub fn hex_digit(n: u8) -> u8
    ensures { result ≡ hex_digit n }
{
    let d = n % 16;
    if d < 10 { b'0' + d } else { b'a' + (d - 10) }
}

// The number that 1 to 16 digits spell.
pub fn hex_number(text: &[u8]) -> Option<u64>
    ensures { result ≡ hex_number text.now }
{
    if text.len() <= 16 {
        number_in(text, Base::Sixteen, MOST_64)
    } else {
        None
    }
}

// The same without leading zeros.
pub fn hex_plain(text: &[u8]) -> Option<u64>
    ensures { result ≡ hex_plain text.now }
{
    if is_plain(text) {
        hex_number(text)
    } else {
        None
    }
}

// Whether every byte is a digit. It looks at all of them, with no early answer, so that it looks at many at once.
pub fn hex_only(text: &[u8]) -> bool
    ensures { result ≡ all_digits 16 text.now }
{
    let mut good = true;
    for b in text {
        good &= hex_value(*b) < 16;
    }
    good
}

// Two letters in one number, the first of them lowest, so that one load reads both.
fn pair_at(text: &[u8], at: usize) -> u16
    requires { at + 1 < length text.now }
    ensures { (result % 256 ≡ slice_index text.now at) × (result / 256 ≡ slice_index text.now (at + 1)) }
{
    u16::from_le_bytes([text[at], text[at + 1]])
}

// The first n bytes that the digits of a text spell.
fn lay_bytes(text: &[u8], n: usize, out: &mut [u8])
    requires { (2 * n ≤ length text.now) × ((n ≤ length out.old) × (all_digits 16 text.now ≡ true)) }
    ensures { out.new ≡ put 0 (take n (pairs text.now)) out.old }
{
    // Index i counts bytes of out: a pair of digits is read whole, by its own index.
    for i in 0..n {
        let pair = pair_at(text, 2 * i);
        out[i] = hex_value((pair % 256) as u8) * 16 + hex_value((pair / 256) as u8);
    }
}

// How many bytes a text spells, and the first most of them over the front of out;
// where it spells none, or those do not fit, out stays as it was.
pub fn hex_front(text: &[u8], most: usize, out: &mut [u8]) -> Option<usize>
    ensures value { result ≡ front_answer most (bytes_spelled text.now) out.old }
    ensures out_after { out.new ≡ front_over most (bytes_spelled text.now) out.old }
{
    if text.len() % 2 != 0 || !hex_only(text) {
        return None;
    }
    let n = most.min(text.len() / 2);
    if out.len() < n {
        return None;
    }
    lay_bytes(text, n, out);
    Some(text.len() / 2)
}

// The bytes that a text spells, over the front of out; where it spells none, or they do not fit, out stays as it was.
pub fn hex_bytes(text: &[u8], out: &mut [u8]) -> Option<usize>
    ensures value { result ≡ spelled_answer (bytes_spelled text.now) out.old }
    ensures out_after { out.new ≡ spelled_over (bytes_spelled text.now) out.old }
{
    hex_front(text, text.len(), out)
}

fn lay_hex(bytes: &[u8], at: usize, out: &mut [u8]) -> usize
    requires { at + 2 * length bytes.now ≤ length out.old }
    ensures value { result ≡ at + 2 * length bytes.now }
    ensures out_after { out.new ≡ put at (hex_text bytes.now) out.old }
{
    // The digits of byte b go to index to.
    // With chunks_exact_mut(2) and zip in place of to, the check left open what out is after the loop.
    let mut to = at;
    for b in bytes {
        out[to] = hex_digit(*b / 16);
        out[to + 1] = hex_digit(*b);
        to += 2;
    }
    to
}

// Two digits for each byte, laid into out from index at on, and the index after them;
// at and nothing laid where they do not fit.
pub fn put_hex(bytes: &[u8], at: usize, out: &mut [u8]) -> usize
    ensures value { result ≡ after at (hex_text bytes.now) out.old }
    ensures out_after { out.new ≡ laid at (hex_text bytes.now) out.old }
{
    if !room(at, 2 * bytes.len(), out.len()) {
        return at;
    }
    lay_hex(bytes, at, out)
}

// The w lowest digits of n, laid as put_hex lays its digits.
pub fn put_hex_fixed(n: u64, w: usize, at: usize, out: &mut [u8]) -> usize
    ensures value { result ≡ after at (digits 16 w n) out.old }
    ensures out_after { out.new ≡ laid at (digits 16 w n) out.old }
{
    put_digits(n, Base::Sixteen, w, at, out)
}

// The digits of n without leading zeros, laid likewise.
pub fn put_hex_plain(n: u64, at: usize, out: &mut [u8]) -> usize
    ensures value { result ≡ after at (hex_plain_text n) out.old }
    ensures out_after { out.new ≡ laid at (hex_plain_text n) out.old }
{
    put_plain(n, Base::Sixteen, at, out)
}
