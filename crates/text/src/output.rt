// Text laid into an output, where it fits.
ghost use Rattle.std.specs.Prelude.{◌≡◌, ◌+◌, nat_le};
ghost use Rattle.text.specs.Laid.{laid, after};

// Whether n bytes from index at on fit into len, for sums of any size.
pub(crate) fn room(at: usize, n: usize, len: usize) -> bool
    ensures { result ≡ nat_le (at + n) len }
{
    at <= len && n <= len - at
}

// The bytes of a text, laid into out from index at on, and the index after them;
// at and nothing laid where they do not fit.
pub fn put_text(text: &[u8], at: usize, out: &mut [u8]) -> usize
    ensures value { result ≡ after at text.now out.old }
    ensures out_after { out.new ≡ laid at text.now out.old }
{
    if !room(at, text.len(), out.len()) {
        return at;
    }
    let end = at + text.len();
    out[at..end].copy_from_slice(text);
    end
}
