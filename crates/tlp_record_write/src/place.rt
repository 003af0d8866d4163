// Numbers at places of a record, the high byte first. Each is two of half its size, which a compiler makes one load:
// from_be_bytes would list up to eight bytes. One function for all sizes would answer a u64, cut at each use.
ghost use Rattle.std.specs.Prelude.{◌≡◌, ◌+◌, ◌≤◌};
ghost use Rattle.bits.specs.Word.{word};
ghost use Rattle.tlp_record.specs.Places.{record_size};

use bits::word::{join16, join32, join64};
use tlp_record::places::RECORD_SIZE;

pub(crate) fn two(record: &[u8; RECORD_SIZE], i: usize) -> u16
    requires { i + 2 ≤ record_size }
    ensures { result ≡ word 2 «record».now i }
{
    join16(record[i], record[i + 1])
}

pub(crate) fn four(record: &[u8; RECORD_SIZE], i: usize) -> u32
    requires { i + 4 ≤ record_size }
    ensures { result ≡ word 4 «record».now i }
{
    join32(two(record, i), two(record, i + 2))
}

pub(crate) fn eight(record: &[u8; RECORD_SIZE], i: usize) -> u64
    requires { i + 8 ≤ record_size }
    ensures { result ≡ word 8 «record».now i }
{
    join64(four(record, i), four(record, i + 4))
}
