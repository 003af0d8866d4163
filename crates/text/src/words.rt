// Words with one space between them, and the values of their keys.
ghost use Rattle.std.specs.Prelude.{◌≡◌, ◌≢◌, ℕ, ◌+◌, ◌≤◌, ◌<◌, true, length, slice_index};
ghost use Rattle.text.specs.Words.{part, starts_with, word_end, value_at};

// The bytes from index from up to index to, as far as there are any.
pub fn part<'a>(bytes: &'a [u8], from: usize, to: usize) -> &'a [u8]
    ensures { result.now ≡ part bytes.now from to }
{
    let end = to.min(bytes.len());
    &bytes[from.min(end)..end]
}

// The index of the first such byte from index at on, or the end.
pub(crate) fn byte_from(text: &[u8], at: usize, byte: u8) -> usize
    ensures within { result ≤ length text.now }
    ensures behind { at ≤ length text.now → at ≤ result }
    ensures past { length text.now < at → result ≡ length text.now }
    ensures before { (k : ℕ) → at ≤ k → k < result → slice_index text.now k ≢ byte }
    ensures found { result < length text.now → slice_index text.now result ≡ byte }
{
    for i in at..text.len() {
        if text[i] == byte {
            return i;
        }
    }
    text.len()
}

// The index of the first space from index at on, or the end.
pub fn word_end(line: &[u8], at: usize) -> usize
    ensures { result ≡ word_end line.now at }
{
    byte_from(line, at, b' ')
}

// Whether key stands in a line from index at on.
pub fn starts_with(line: &[u8], at: usize, key: &[u8]) -> bool
    ensures value { result ≡ starts_with line.now at key.now }
    ensures within { result ≡ true → at + length key.now ≤ length line.now }
{
    at <= line.len() && line[at..].starts_with(key)
}

// The place of a key's value: from index from up to index to.
#[derive(Clone, Copy, Debug, PartialEq, Eq)]
pub struct Place {
    pub from: usize,
    pub to: usize,
}

// The value of the key that stands at index at: what follows it, up to the next space or the end.
pub fn value_at(line: &[u8], at: usize, key: &[u8]) -> Option<Place>
    ensures { result ≡ value_at line.now at key.now }
{
    if !starts_with(line, at, key) {
        return None;
    }
    let from = at + key.len();
    let to = word_end(line, from);
    Some(Place { from, to })
}
