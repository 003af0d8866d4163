// Where a line ends.
ghost use Rattle.std.specs.Prelude.{◌≡◌, ◌≢◌, ℕ, ◌≤◌, ◌<◌, length, slice_index};

use crate::words::byte_from;

// The index of the first newline from index at on, or the end.
pub fn line_end(text: &[u8], at: usize) -> usize
    ensures within { result ≤ length text.now }
    ensures behind { at ≤ length text.now → at ≤ result }
    ensures past { length text.now < at → result ≡ length text.now }
    ensures before { (k : ℕ) → at ≤ k → k < result → slice_index text.now k ≢ 10 }
    ensures newline { result < length text.now → slice_index text.now result ≡ 10 }
{
    byte_from(text, at, b'\n')
}
