// A set of tags: tag mod 64 is the bit, tag div 64 the word.
ghost use Rattle.std.specs.Prelude.{◌≡◌, ◌<◌};
ghost use Rattle.bits.specs.Field.{bit, low};
ghost use Rattle.reads_words.specs.TagSets.{with_bit, without_bit, without_lowest, contains, with_tag, without_tag};
ghost use Rattle.reads_words.specs.TagSets.{word_below};

use crate::CAPACITY;
use bits::count::lowest_bit;

// An array, and no struct over it: a C caller lends it as one.
pub type TagSet = [u64; CAPACITY / 64];

// Whether bit b of a word is set.
fn has_bit(w: u64, b: usize) -> bool
    requires { b < 64 }
    ensures { result ≡ bit w b }
{
    (w >> b) % 2 == 1
}

// A word with bit b set.
fn with_bit(w: u64, b: usize) -> u64
    requires { b < 64 }
    ensures { result ≡ with_bit w b }
{
    if has_bit(w, b) { w } else { w + (1 << b) }
}

// A word with bit b clear.
fn without_bit(w: u64, b: usize) -> u64
    requires { b < 64 }
    ensures { result ≡ without_bit w b }
{
    if has_bit(w, b) { w - (1 << b) } else { w }
}

// Whether a tag is in the set.
#[tactic(auto, unfolding(crate::specs::TagSets::contains))]
pub fn contains(tags: &TagSet, tag: usize) -> bool
    ensures { result ≡ contains tags.now tag }
{
    tag < CAPACITY && has_bit(tags[tag / 64], tag % 64)
}

// Puts a tag into the set.
#[tactic(auto, unfolding(crate::specs::TagSets::changed))]
pub fn with_tag(tags: &mut TagSet, tag: usize)
    ensures { tags.new ≡ with_tag tags.old tag }
{
    if tag < CAPACITY {
        let j = tag / 64;
        tags[j] = with_bit(tags[j], tag % 64);
    }
}

// Takes a tag out of the set. It and with_tag differ in one call: a closure for that would be no shorter.
#[tactic(auto, unfolding(crate::specs::TagSets::changed))]
pub fn without_tag(tags: &mut TagSet, tag: usize)
    ensures { tags.new ≡ without_tag tags.old tag }
{
    if tag < CAPACITY {
        let j = tag / 64;
        tags[j] = without_bit(tags[j], tag % 64);
    }
}

// ---- the tags of a set, a word at a time

// The lowest n bits of a word.
fn low_bits(w: u64, n: usize) -> u64
    ensures { result ≡ low w n }
{
    if 64 <= n { w } else { w % (1 << n) }
}

// A word whose first tag is from, with the tags below the limit alone.
#[tactic(auto, unfolding(crate::specs::TagSets::word_below))]
pub fn word_below(w: u64, from: usize, limit: usize) -> u64
    ensures { result ≡ word_below w from limit }
{
    low_bits(w, limit.saturating_sub(from))
}

// A word without its lowest tag; a word of zero has none.
pub fn without_lowest(w: u64) -> u64
    ensures { result ≡ without_lowest w }
{
    if w == 0 { 0 } else { w - (1 << lowest_bit(w)) }
}
