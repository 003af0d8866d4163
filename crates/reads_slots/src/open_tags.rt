// Scans over the records of all tags below a limit: a word of the set at a time, its open tags alone.
ghost use Rattle.std.specs.Prelude.{◌≡◌, ◌≤◌};
ghost use Rattle.scans.specs.Belows.{all_below, any_below, sum_below};
ghost use Rattle.reads_words.specs.Capacity.{capacity};
ghost use Rattle.reads_slots.specs.Records.{valid_at, shares_at, owed_at};
ghost use Rattle.reads_slots.specs.Inner.WordScans.{AnyOpen, owed_in_word};

use bits::count::lowest_bit;
use reads_rules::read::Read;
use reads_rules::request::ReadRequest;
use reads_rules::validity::{owed_of, valid_read};
use reads_rules::window::shares_byte;
use reads_words::CAPACITY;
use reads_words::tag_set::{TagSet, without_lowest, word_below};
use reads_words::words::{Words, read_at};
use tlp::settings::Settings;

// Whether a test holds of an open read below a limit. Tags are looked at ascending, and none after the first that it
// holds of. Word j of the set has the tags from 64 * j on; rest is what is left of it, so that no index is counted.
fn any_open<F: Fn(Read) -> bool>(limit: usize, opened: &TagSet, words: &Words, test: F) -> bool
    requires { F.IsAlwaysCallable test }
    ensures { AnyOpen (F.post test) limit opened.now words.now result }
{
    for j in 0..CAPACITY / 64 {
        let mut rest = word_below(opened[j], 64 * j, limit);
        while rest != 0 {
            if test(read_at(words, 64 * j + lowest_bit(rest))) {
                return true;
            }
            rest = without_lowest(rest);
        }
    }
    false
}

// Whether open would accept every read that is open.
pub fn all_valid(settings: Settings, limit: usize, opened: &TagSet, words: &Words) -> bool
    ensures { result ≡ all_below limit (valid_at settings limit opened.now words.now) }
{
    !any_open(limit, opened, words, |r| !valid_read(settings, r))
}

// Whether the window shares a byte with an open read's.
pub fn window_taken(q: ReadRequest, limit: usize, opened: &TagSet, words: &Words) -> bool
    ensures { result ≡ any_below limit (shares_at q limit opened.now words.now) }
{
    any_open(limit, opened, words, |r| shares_byte(q, r.request))
}

// A sum has loops of its own: a closure that adds up leaves the proof without the sum.
//
// The doublewords owed to the reads of a word w of the set, of which from is the first tag; rest is as in any_open.
fn word_owed(w: u64, words: &Words, from: usize) -> u64
    requires { from ≤ capacity }
    ensures { result ≡ sum_below 64 (owed_in_word w words.now from) }
{
    let mut sum: u64 = 0;
    let mut rest = w;
    while rest != 0 {
        sum += u64::from(owed_of(read_at(words, from + lowest_bit(rest))));
        rest = without_lowest(rest);
    }
    sum
}

// The doublewords still owed to all open reads.
pub fn tags_owed(limit: usize, opened: &TagSet, words: &Words) -> u64
    ensures { result ≡ sum_below limit (owed_at limit opened.now words.now) }
{
    let mut sum: u64 = 0;
    for j in 0..CAPACITY / 64 {
        sum += word_owed(word_below(opened[j], 64 * j, limit), words, 64 * j);
    }
    sum
}
