// The fields of a line: keys in a fixed order, each followed by its value.
// Line, index and key go apart: a cursor would hold the line, and clauses are over what goes in.
ghost use Rattle.std.specs.Prelude.{◌≡◌, ℕ, ◌^◌, ◌<◌, ◌≤◌, List, Option, IfSome};
ghost use Rattle.std.specs.Fn.{FnReturnsAt};
ghost use Rattle.text.specs.Fields.{read_after, decimal_after, hex_after, plain_hex_after, key_after};

use crate::decimal::decimal;
use crate::hex::{hex_number, hex_plain};
use crate::words::{part, starts_with, value_at};

// A value, and the index after it, where the next field's key stands.
#[derive(Clone, Copy, Debug, PartialEq, Eq)]
pub struct Field {
    pub value: u64,
    pub next: usize,
}

// A number that parse reads, with its key from index at on.
fn read_after<F: Fn(&[u8]) -> Option<u64>>(
    line: &[u8],
    at: usize,
    key: &[u8],
    parse: F,
) -> Option<Field>
    requires { F.IsAlwaysCallable parse }
    ensures { (number : List ℕ → Option ℕ)
        → ((text : List ℕ) (n : _) → FnReturnsAt F.Fn parse text n → n ≡ number text)
        → result ≡ read_after number line.now at key.now }
{
    let place = value_at(line, at, key)?;
    let value = parse(part(line, place.from, place.to))?;
    Some(Field {
        value,
        next: place.to,
    })
}

// A decimal number that is not above most.
pub fn decimal_after(line: &[u8], at: usize, key: &[u8], most: u64) -> Option<Field>
    ensures value { result ≡ decimal_after line.now at key.now most }
    ensures within { IfSome result (λ f. f.value ≤ most) }
{
    read_after(line, at, key, |text| decimal(text, most))
}

// A number in so many hexadecimal digits.
pub fn hex_after(line: &[u8], at: usize, key: &[u8], width: usize) -> Option<Field>
    ensures value { result ≡ hex_after line.now at key.now width }
    ensures within { IfSome result (λ f. f.value < 16 ^ width) }
{
    read_after(
        line,
        at,
        key,
        |digits| if digits.len() == width {
            hex_number(digits)
        } else {
            None
        },
    )
}

// A hexadecimal number without leading zeros.
pub fn plain_hex_after(line: &[u8], at: usize, key: &[u8]) -> Option<Field>
    ensures { result ≡ plain_hex_after line.now at key.now }
{
    read_after(line, at, key, hex_plain)
}

// The key alone: the index after it.
#[tactic(auto, unfolding(crate::specs::Fields::key_after))]
pub fn key_after(line: &[u8], at: usize, key: &[u8]) -> Option<usize>
    ensures { result ≡ key_after line.now at key.now }
{
    if starts_with(line, at, key) {
        Some(at + key.len())
    } else {
        None
    }
}
