// Bytes of a slice, and numbers of several bytes, the high byte first. A place past the end reads as 0, so nobody has
// to look first.
ghost use Rattle.std.specs.Prelude.{◌≡◌, ◌+◌, ◌*◌, ◌≤◌, length};
ghost use Rattle.bits.specs.Word.{byte, word, whole_word, bytes};

// The byte at a place.
pub fn byte_at(src: &[u8], at: u32) -> u8
    ensures { result ≡ byte src.now at }
{
    let i = at as usize;
    if i < src.len() { src[i] } else { 0 }
}

// Two numbers as one, the first above the second.
pub fn join16(a: u8, b: u8) -> u16
    ensures { result ≡ a * 256 + b }
{
    u16::from_be_bytes([a, b])
}

// No call of the library joins two numbers that are no bytes.
pub fn join32(a: u16, b: u16) -> u32
    ensures { result ≡ a * 65536 + b }
{
    u32::from(a) * 65536 + u32::from(b)
}

pub fn join64(a: u32, b: u32) -> u64
    ensures { result ≡ a * 4294967296 + b }
{
    u64::from(a) * 4294967296 + u64::from(b)
}

// The number in the two bytes from a place on. One function a size: the size fixes the type, and a caller's place is a
// number known to it.
pub fn word16(src: &[u8], at: u16) -> u16
    ensures { result ≡ word 2 src.now at }
{
    let i = u32::from(at);
    u16::from_be_bytes([byte_at(src, i), byte_at(src, i + 1)])
}

// The number in four bytes.
pub fn word32(src: &[u8], at: u16) -> u32
    ensures { result ≡ word 4 src.now at }
{
    let i = u32::from(at);
    u32::from_be_bytes([
        byte_at(src, i),
        byte_at(src, i + 1),
        byte_at(src, i + 2),
        byte_at(src, i + 3),
    ])
}

// The number in eight bytes.
pub fn word64(src: &[u8], at: u16) -> u64
    ensures { result ≡ word 8 src.now at }
{
    let i = u32::from(at);
    u64::from_be_bytes([
        byte_at(src, i),
        byte_at(src, i + 1),
        byte_at(src, i + 2),
        byte_at(src, i + 3),
        byte_at(src, i + 4),
        byte_at(src, i + 5),
        byte_at(src, i + 6),
        byte_at(src, i + 7),
    ])
}

// A number all of whose bytes are there, else 0: one look at the length for all eight.
pub fn whole64(src: &[u8], at: u16) -> u64
    ensures value { result ≡ whole_word 8 src.now at }
    ensures whole { at + 8 ≤ length src.now → result ≡ word 8 src.now at }
{
    let i = usize::from(at);
    if i + 8 <= src.len() {
        u64::from_be_bytes([
            src[i],
            src[i + 1],
            src[i + 2],
            src[i + 3],
            src[i + 4],
            src[i + 5],
            src[i + 6],
            src[i + 7],
        ])
    } else {
        0
    }
}

// A number's two bytes, the high byte first.
pub fn bytes16(x: u16) -> [u8; 2]
    ensures { result ≡ bytes 2 x }
{
    x.to_be_bytes()
}

// A number's four bytes.
pub fn bytes32(x: u32) -> [u8; 4]
    ensures { result ≡ bytes 4 x }
{
    x.to_be_bytes()
}

// A number's eight bytes.
pub fn bytes64(x: u64) -> [u8; 8]
    ensures { result ≡ bytes 8 x }
{
    x.to_be_bytes()
}
