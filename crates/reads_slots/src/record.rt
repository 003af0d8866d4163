// One tag's record. What is only looked at is lent: what is given by value is copied.
ghost use Rattle.std.specs.Prelude.{◌≡◌};
ghost use Rattle.reads_slots.specs.Records.{record_at, state_below, opened_with, words_with};

use reads_rules::read::Read;
use reads_words::tag_set::{TagSet, contains, with_tag, without_tag};
use reads_words::words::{Words, clear_read, put_read, read_at};

// What is kept of a tag, whether it is below the limit or not.
#[tactic(auto, unfolding(crate::specs::Records::record_at))]
pub fn record_at(opened: &TagSet, words: &Words, tag: usize) -> Option<Read>
    ensures { result ≡ record_at opened.now words.now tag }
{
    if contains(opened, tag) {
        Some(read_at(words, tag))
    } else {
        None
    }
}

// A tag's record; one that is not below the limit is free.
#[tactic(auto, unfolding(crate::specs::Records::state_below))]
pub fn state_below(limit: usize, opened: &TagSet, words: &Words, tag: usize) -> Option<Read>
    ensures { result ≡ state_below limit opened.now words.now tag }
{
    if tag < limit {
        record_at(opened, words, tag)
    } else {
        None
    }
}

// Puts a tag's record: every change of one is this.
pub fn put_state(opened: &mut TagSet, words: &mut Words, tag: usize, x: Option<Read>)
    ensures opened_after { opened.new ≡ opened_with opened.old tag x }
    ensures words_after { words.new ≡ words_with words.old tag x }
{
    match x {
        None => {
            without_tag(opened, tag);
            clear_read(words, tag);
        }
        Some(r) => {
            with_tag(opened, tag);
            put_read(words, tag, r);
        }
    }
}
