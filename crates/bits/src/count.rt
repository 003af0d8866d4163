// Counts over a nibble, the low four bits of a byte, and the lowest bit of a word.
ghost use Rattle.std.specs.Prelude.{◌≡◌, ◌%◌};
ghost use Rattle.bits.specs.Count.{clear_below, clear_above, set_bits};

// The clear bits below the lowest set bit of a nibble; 4 where none is set.
pub fn clear_below(x: u8) -> u32
    ensures { result ≡ clear_below 4 (x % 16) }
{
    u32::from(x % 16).trailing_zeros().min(4)
}

// The clear bits above the highest set bit of a nibble; 4 where none is set.
pub fn clear_above(x: u8) -> u32
    ensures { result ≡ clear_above 4 (x % 16) }
{
    u32::from(x % 16).leading_zeros() - 28
}

// The set bits of a nibble.
pub fn set_bits(x: u8) -> u32
    ensures { result ≡ set_bits 4 (x % 16) }
{
    u32::from(x % 16).count_ones()
}

// The lowest bit that is set; 64 where none is.
pub fn lowest_bit(x: u64) -> usize
    ensures { result ≡ clear_below 64 x }
{
    x.trailing_zeros() as usize
}
