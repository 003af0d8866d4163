// A line that is being made, in its own room: it is printed whole or not at all. Not by Display, since what fmt writes
// is in no contract.
ghost use Rattle.std.specs.Prelude.{◌≡◌, ℕ, ◌+◌, ◌≤◌, List, [], ◌++◌, length, take};
ghost use Rattle.text.specs.Laid.{laid, after};
ghost use Rattle.text.specs.Decimal.{decimal_text};
ghost use Rattle.capture_print.specs.Inner.Texts.{output_most, number_most};

use std::marker::Model;
use text::decimal::put_decimal;
use text::output::put_text;
use text::words::part;

// No line that is printed has more bytes.
const OUTPUT_MOST: usize = 192;

#[derive(Drop)]
pub(crate) struct Line {
    bytes: [u8; OUTPUT_MOST],
    size: usize,
}

impl Model for Line {
    ghost Value = { List ℕ };

    ghost view = { λ l. take l.size l.bytes };

    ghost invariant = { λ l. l.size ≤ output_most };
}

impl Line {
    pub(crate) fn new() -> Self
        ensures { result ≡ [] }
    {
        Line {
            bytes: [0; OUTPUT_MOST],
            size: 0,
        }
    }

    pub(crate) fn add(&mut self, text: &[u8])
        requires { length self.old + length text.now ≤ output_most }
        ensures { self.new ≡ self.old ++ text.now }
    {
        self.size = put_text(text, self.size, &mut self.bytes);
    }

    pub(crate) fn add_number(&mut self, n: u64)
        requires { length self.old + number_most ≤ output_most }
        ensures line { self.new ≡ self.old ++ decimal_text n }
        ensures size { length self.new ≤ length self.old + number_most }
    {
        self.size = put_decimal(n, self.size, &mut self.bytes);
    }

    // Lays the line into out from index at on, and gives the index after it; at and nothing laid where it does not fit.
    pub(crate) fn put(&self, at: usize, out: &mut [u8]) -> usize
        ensures answer { result ≡ after at self.now out.old }
        ensures output { out.new ≡ laid at self.now out.old }
    {
        put_text(part(&self.bytes, 0, self.size), at, out)
    }
}
