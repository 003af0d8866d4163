// Bytes laid over a part of an output.
ghost use Rattle.std.specs.Prelude.{◌≡◌, [], ◌++◌, ◌+◌, ◌≤◌, length, take};
ghost use Rattle.bits.specs.Choice.{pick};
ghost use Rattle.bits.specs.Put.{put};
ghost use Rattle.bits.specs.Word.{bytes};
ghost use Rattle.tlp_write.specs.Inner.Head.{word_bytes};

use crate::words::Words;
use bits::word::{bytes32, bytes64, join64};

// Lays src over out from index at on, and returns the index after it.
pub(crate) fn put_at(at: usize, src: &[u8], out: &mut [u8]) -> usize
    requires { at + length src.now ≤ length out.old }
    ensures { (result ≡ at + length src.now)
        × (out.new ≡ put at src.now out.old) }
{
    let end = at + src.len();
    out[at..end].copy_from_slice(src);
    end
}

// Lays a header over the front of the output, and returns its size.
pub(crate) fn put_words(front: u32, w: Words, wide: bool, out: &mut [u8]) -> usize
    requires { pick wide 16 12 ≤ length out.old }
    ensures { (result ≡ pick wide 16 12)
        × (out.new ≡ put 0 (take (pick wide 16 12) (bytes 4 front ++ word_bytes w)) out.old) }
{
    put_at(0, &bytes64(join64(front, w.second)), out);
    if wide {
        put_at(8, &bytes64(w.tail), out)
    } else {
        put_at(8, &bytes32((w.tail / 4294967296) as u32), out)
    }
}

// Lays the digest over the output from index at on, where there is one.
pub(crate) fn put_digest(has_digest: bool, digest: u32, at: usize, out: &mut [u8])
    requires { at + length (pick has_digest (bytes 4 digest) []) ≤ length out.old }
    ensures { out.new ≡ put at (pick has_digest (bytes 4 digest) []) out.old }
{
    if has_digest {
        put_at(at, &bytes32(digest), out);
    }
}
