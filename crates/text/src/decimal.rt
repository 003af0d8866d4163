// Decimal numbers without leading zeros.
ghost use Rattle.std.specs.Prelude.{◌≡◌};
ghost use Rattle.text.specs.Laid.{laid, after};
ghost use Rattle.text.specs.Decimal.{decimal_number, decimal_text};

use crate::number::{Base, is_plain, number_in, put_plain};

// The number that a text spells, where it is not above most.
pub fn decimal(text: &[u8], most: u64) -> Option<u64>
    ensures { result ≡ decimal_number most text.now }
{
    if is_plain(text) {
        number_in(text, Base::Ten, most)
    } else {
        None
    }
}

// The digits of n, laid into out from index at on, and the index after them;
// at and nothing laid where they do not fit.
pub fn put_decimal(n: u64, at: usize, out: &mut [u8]) -> usize
    ensures value { result ≡ after at (decimal_text n) out.old }
    ensures out_after { out.new ≡ laid at (decimal_text n) out.old }
{
    put_plain(n, Base::Ten, at, out)
}
