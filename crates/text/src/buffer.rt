// A buffer that is read in parts: what one part leaves goes to the front.
ghost use Rattle.std.specs.Prelude.{◌≡◌};
ghost use Rattle.text.specs.Buffer.{moved_to_front};

// Moves the bytes from index from up to index to, as far as there are any, to the front.
// What follows the front stays as it was.
pub fn move_to_front(buf: &mut [u8], from: usize, to: usize)
    ensures { buf.new ≡ moved_to_front from to buf.old }
{
    let end = to.min(buf.len());
    buf.copy_within(from.min(end)..end, 0);
}
