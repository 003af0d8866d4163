// The words of a tag's read: address; start; length and doublewords taken; enables, traffic class and attributes.
ghost use Rattle.std.specs.Prelude.{◌≡◌};
ghost use Rattle.reads_words.specs.Words.{sizes_of, marks_of, read_of, read_at, put_words, put_read, clear_read};

use crate::CAPACITY;
use bits::word::join64;
use byte_enables::Access;
use reads_rules::read::Read;
use reads_rules::request::ReadRequest;

// An array, and no struct over it: a C caller lends it as one.
pub type Words = [u64; 4 * CAPACITY];

// The third word of a read.
fn sizes_of(length: u32, taken: u32) -> u64
    ensures { result ≡ sizes_of length taken }
{
    join64(taken, length)
}

// The fourth word of a read. A sum, no from_be_bytes of four bytes: with that a turn was measured slower.
fn marks_of(first: u8, last: u8, traffic_class: u8, attributes: u8) -> u64
    ensures { result ≡ marks_of first last traffic_class attributes }
{
    ((attributes as u64 * 256 + traffic_class as u64) * 256 + last as u64) * 256 + first as u64
}

// A read from its four words.
#[tactic(auto, unfolding(crate::specs::Words::read_of))]
pub fn read_of(address: u64, start: u64, sizes: u64, marks: u64) -> Read
    ensures { result ≡ read_of address start sizes marks }
{
    Read {
        request: ReadRequest {
            access: Access {
                address,
                length: (sizes % 4294967296) as u32,
                first: (marks % 256) as u8,
                last: (marks / 256 % 256) as u8,
            },
            traffic_class: (marks / 65536 % 256) as u8,
            attributes: (marks / 16777216 % 256) as u8,
            start,
        },
        taken: (sizes / 4294967296) as u32,
    }
}

// The read that a tag's words hold.
#[tactic(auto, unfolding(crate::specs::Words::read_at))]
pub fn read_at(words: &Words, tag: usize) -> Read
    ensures { result ≡ read_at words.now tag }
{
    if tag < CAPACITY {
        let i = 4 * tag;
        read_of(words[i], words[i + 1], words[i + 2], words[i + 3])
    } else {
        read_of(0, 0, 0, 0)
    }
}

// Lays four words over those of a tag.
#[tactic(auto, unfolding(crate::specs::Words::put_words))]
fn put_words(words: &mut Words, tag: usize, address: u64, start: u64, sizes: u64, marks: u64)
    ensures { words.new ≡ put_words words.old tag address start sizes marks }
{
    if tag < CAPACITY {
        let i = 4 * tag;
        words[i] = address;
        words[i + 1] = start;
        words[i + 2] = sizes;
        words[i + 3] = marks;
    }
}

// Lays a read over the words of a tag.
#[tactic(auto, unfolding(crate::specs::Words::put_read))]
pub fn put_read(words: &mut Words, tag: usize, r: Read)
    ensures { words.new ≡ put_read words.old tag r }
{
    let q = r.request;
    let a = q.access;
    put_words(
        words,
        tag,
        a.address,
        q.start,
        sizes_of(a.length, r.taken),
        marks_of(a.first, a.last, q.traffic_class, q.attributes),
    );
}

// Clears the words of a tag: those of a free one have one form.
#[tactic(auto, unfolding(crate::specs::Words::clear_read))]
pub fn clear_read(words: &mut Words, tag: usize)
    ensures { words.new ≡ clear_read words.old tag }
{
    put_words(words, tag, 0, 0, 0, 0);
}
