// A header from byte 4 on, as two numbers: what is one number is stored at once.
ghost use Rattle.std.specs.Prelude.{◌≡◌, [], ◌∷◌, ◌++◌};
ghost use Rattle.bits.specs.Word.{bytes};
ghost use Rattle.tlp_write.specs.Layout.{request_bytes, memory_address, config_bytes, message_bytes, completion_bytes, own_bytes};
ghost use Rattle.tlp_write.specs.Inner.Padded.{padded};
ghost use Rattle.tlp_write.specs.Inner.Head.{word_bytes};

use bits::word::{join16, join32};
use tlp::packet::{
    CompletionHeader, ConfigRequest, Kind, MessageRequest, Request, Route, address_of, id_of,
};

// Bytes 4 to 7, and bytes 8 to 15; a header of three doublewords ends after the high half of these, and the low half is
// 0.
#[derive(Clone, Copy, Debug, PartialEq, Eq)]
pub struct Words {
    pub second: u32,
    pub tail: u64,
}

fn word_of(id: u16, a: u8, b: u8) -> u32
    ensures { bytes 4 result ≡ bytes 2 id ++ (a ∷ b ∷ []) }
{
    join32(id, join16(a, b))
}

// Four bytes over four zeros.
fn high_half(a: u64) -> u64
    ensures { bytes 8 result ≡ padded 8 (bytes 4 a) }
{
    a % 4294967296 * 4294967296
}

#[tactic(auto, unfolding(crate::specs::Layout::memory_address))]
fn memory_tail(a: u64) -> u64
    ensures { bytes 8 result ≡ padded 8 (memory_address a) }
{
    if a < 4294967296 { high_half(a) } else { a }
}

fn request_word(q: Request) -> u32
    ensures { bytes 4 result ≡ request_bytes q }
{
    word_of(q.requester, q.tag, q.last % 16 * 16 + q.first % 16)
}

// Those of a memory request.
pub fn memory_words(address: u64, q: Request) -> Words
    ensures { word_bytes result ≡ padded 12 (request_bytes q ++ memory_address address) }
{
    Words {
        second: request_word(q),
        tail: memory_tail(address),
    }
}

// Those of an I/O request. Beside memory_words: an I/O address never has eight bytes.
pub fn io_words(address: u64, q: Request) -> Words
    ensures { word_bytes result ≡ padded 12 (request_bytes q ++ bytes 4 address) }
{
    Words {
        second: request_word(q),
        tail: high_half(address),
    }
}

// Those of a configuration request, with its target ID.
pub fn config_words(target: u16, q: ConfigRequest) -> Words
    ensures { word_bytes result ≡ padded 12 (config_bytes target q) }
{
    let third = word_of(target, q.extended_register % 16, q.register % 64 * 4);
    Words {
        second: request_word(q.request),
        tail: high_half(u64::from(third)),
    }
}

// Those of a message.
pub fn message_words(m: MessageRequest) -> Words
    ensures { word_bytes result ≡ message_bytes m }
{
    Words {
        second: word_of(m.requester, m.tag, m.code),
        tail: m.body,
    }
}

// Those of a completion, with the requester ID that it goes to.
#[inline(always)]
pub fn completion_words(requester: u16, c: CompletionHeader) -> Words
    ensures { word_bytes result ≡ padded 12 (completion_bytes requester c) }
{
    let high = (c.byte_count / 256 % 16) as u8;
    let low = (c.byte_count % 256) as u8;
    let b6 = c.status % 8 * 32 + u8::from(c.byte_count_modified) * 16 + high;
    let third = word_of(requester, c.tag, c.lower_address % 128);
    Words {
        second: word_of(c.completer, b6, low),
        tail: high_half(u64::from(third)),
    }
}

#[tactic(auto, unfolding(crate::specs::Layout::own_bytes))]
pub(crate) fn own_words(r: Route, k: Kind) -> Words
    ensures { word_bytes result ≡ padded 12 (own_bytes r k) }
{
    match k {
        Kind::MemoryRead(q) | Kind::MemoryWrite(q) => memory_words(address_of(r), q),
        Kind::IoRead(q) | Kind::IoWrite(q) => io_words(address_of(r), q),
        Kind::ConfigRead0(q)
        | Kind::ConfigWrite0(q)
        | Kind::ConfigRead1(q)
        | Kind::ConfigWrite1(q) => config_words(id_of(r), q),
        Kind::Message(m) | Kind::MessageData { message: m, .. } => message_words(m),
        Kind::Completion(c) | Kind::CompletionData { completion: c, .. } => {
            completion_words(id_of(r), c)
        }
    }
}
