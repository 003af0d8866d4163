// The checksum FNV-1a, 64 bits.
ghost use Rattle.std.specs.Prelude.{◌≡◌};
ghost use Rattle.calls_printed.specs.Checksum.{checksum};

// 2^40 + 435
const PRIME: u64 = 1099511628211;

// The checksum of some bytes.
pub fn checksum(bytes: &[u8]) -> u64
    ensures { result ≡ checksum bytes.now }
{
    let mut hash: u64 = 14695981039346656037;
    // `as`, not u64::from: with it the check did not find the next turn of the checksum.
    for b in bytes {
        hash = (hash ^ *b as u64).wrapping_mul(PRIME);
    }
    hash
}
