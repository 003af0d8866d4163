// The lines of a capture.
#![tactic(auto)]

ghost use Rattle.std.specs.Prelude.{◌≡◌, ◌≤◌, ltb, length};
ghost use Rattle.capture_lines.specs.Lines.{line_length, next_line};
ghost use Rattle.capture_lines.specs.Inner.Newlines.{newline_from};

use text::lines::line_end;

// The most bytes of a line, without its newline.
pub const TEXT_MOST: usize = 8266;

// A line: end is the index of the next line, or the end of the bytes. It stays an enum of three kinds: end means
// something else in the last, and who reads a line asks for its kind first.
#[derive(Clone, Copy, Debug, PartialEq, Eq)]
pub enum NextLine {
    Ended { end: usize },
    // It has more than TEXT_MOST bytes.
    OverLong { end: usize },
    // No newline follows.
    Unended { end: usize },
}

// Whether there is a newline. It looks at every byte, even behind a newline, so that it looks at many at once; found:
// whether one stands before the next byte.
fn has_newline(bytes: &[u8]) -> bool
    ensures { result ≡ ltb (line_length bytes.now) (length bytes.now) }
{
    let mut found = false;
    for b in bytes {
        found |= *b == b'\n';
    }
    found
}

// So many bytes are looked at together.
const CHUNK: usize = 32;

// An index from which on the first newline is found as from index from. No newline stands from index from up to index
// i, where the next chunk begins. No enumerate: i is wanted behind the last chunk, too.
fn skipped_from(bytes: &[u8], from: usize) -> usize
    requires { from ≤ length bytes.now }
    ensures within { result ≤ length bytes.now }
    ensures newline { newline_from bytes.now result ≡ newline_from bytes.now from }
{
    let mut i = from;
    for chunk in bytes[from..].chunks_exact(CHUNK) {
        if has_newline(chunk) {
            return i;
        }
        i += CHUNK;
    }
    i
}

// The index of the first newline from index from on, or the end.
fn newline_from(bytes: &[u8], from: usize) -> usize
    requires { from ≤ length bytes.now }
    ensures { result ≡ newline_from bytes.now from }
{
    line_end(bytes, skipped_from(bytes, from))
}

// The line that begins at index place, for a caller that goes through lines one by one.
#[tactic(auto, using(crate::proofs::NewlineLaws::next_laws))]
pub fn next_line(bytes: &[u8], place: usize) -> NextLine
    ensures { result ≡ next_line bytes.now place }
{
    let start = place.min(bytes.len());
    let end = newline_from(bytes, start);
    if bytes.len() <= end {
        NextLine::Unended { end }
    } else if TEXT_MOST < end - start {
        NextLine::OverLong { end: end + 1 }
    } else {
        NextLine::Ended { end: end + 1 }
    }
}
