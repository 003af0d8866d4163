// The table: what it was made from, the set of its open tags, and the words of their reads.
ghost use Rattle.std.specs.Prelude.{◌≡◌};
ghost use Rattle.tlp.specs.Rows.{first};
ghost use Rattle.tlp.specs.Refusals.{checked};
ghost use Rattle.reads.specs.Tables.{tag_limit, table_of, state_at, valid_table};
ghost use Rattle.reads.specs.OtherCalls.{make_call, withdraw_rows, withdraw_call, owed_call};
ghost use Rattle.reads.specs.Lent.{withdrawal_of};

use reads_answers::TakeAnswer;
use reads_rules::origin::Origin;
use reads_rules::read::Read;
use reads_slots::open_tags::{all_valid, tags_owed};
use reads_slots::record::{put_state, state_below};
use reads_words::CAPACITY;
use reads_words::tag_set::TagSet;
use reads_words::words::Words;
use tlp::refusal::Refusal;
use tlp::settings::{Settings, settings_listed};

// Fields are public, so that a table that no call reaches can be made and tried. A table is given to nobody but its
// methods: who is given one copies it. Each of them is a thin call of a core that is given the origin and lent set
// and words. These three are no struct of references: clauses are over each one's old and new, and a C host lends
// them as arrays.
#[derive(Clone, Copy)]
pub struct Table {
    pub origin: Origin,
    pub opened: TagSet,
    pub words: Words,
}

// Each call hands the next table back beside its answer. Open answers the size of the header that was written.
#[derive(Clone, Copy)]
pub struct Making {
    pub table: Table,
    pub answer: Result<(), Refusal>,
}

#[derive(Clone, Copy)]
pub struct Opening {
    pub table: Table,
    pub answer: Result<usize, Refusal>,
}

#[derive(Clone, Copy)]
pub struct Taking {
    pub table: Table,
    pub answer: TakeAnswer,
}

#[derive(Clone, Copy)]
pub struct Withdrawal {
    pub table: Table,
    pub answer: Result<(), Refusal>,
}

// The tags that may be opened are those below.
#[tactic(auto, unfolding(crate::specs::Tables::tag_limit))]
pub fn tag_limit(settings: Settings) -> u32
    ensures { result ≡ tag_limit settings }
{
    32
}

// Whether the table that the parts make is valid: what 11 denies.
#[tactic(auto, using(crate::proofs::TableLaws::valid_seen), unfolding(crate::specs::Tables::valid_table))]
pub(crate) fn valid_table(o: Origin, opened: &TagSet, words: &Words) -> bool
    ensures { result ≡ valid_table (table_of o opened.now words.now) }
{
    settings_listed(o.settings)
        && all_valid(o.settings, tag_limit(o.settings) as usize, opened, words)
}

// The record of a tag, from the parts of a table.
#[tactic(auto, using(crate::proofs::TableLaws::state_seen))]
pub(crate) fn state_at(o: Origin, opened: &TagSet, words: &Words, tag: u32) -> Option<Read>
    ensures { result ≡ state_at (table_of o opened.now words.now) tag }
{
    state_below(tag_limit(o.settings) as usize, opened, words, tag as usize)
}

// The first of 11, 20 and 25 that holds.
#[tactic(auto, unfolding(tlp::specs::Rows::first, tlp::specs::Refusals::refusal))]
fn withdraw_fault(o: Origin, opened: &TagSet, words: &Words, tag: u32) -> Result<(), Refusal>
    ensures { result ≡ checked (first (withdraw_rows (table_of o opened.now words.now) tag)) }
{
    if !valid_table(o, opened, words) {
        return Err(Refusal::BadSetting);
    }
    if tag_limit(o.settings) <= tag {
        return Err(Refusal::TagOverLimit);
    }
    if state_at(o, opened, words, tag).is_none() {
        return Err(Refusal::TagNotOpen);
    }
    Ok(())
}

// Withdraws a read, over what is lent of a table. Set and words change where it is accepted, and there alone.
pub fn withdraw_lent(
    o: Origin,
    opened: &mut TagSet,
    words: &mut Words,
    tag: u32,
) -> Result<(), Refusal>
    ensures { withdrawal_of o opened.new words.new result
        ≡ withdraw_call (table_of o opened.old words.old) tag }
{
    withdraw_fault(o, opened, words, tag)?;
    put_state(opened, words, tag as usize, None);
    Ok(())
}

// The doublewords still owed, over what is lent of a table.
#[tactic(auto, using(crate::proofs::TableLaws::owed_seen), unfolding(crate::specs::OtherCalls::owed_call))]
pub fn owed_lent(o: Origin, opened: &TagSet, words: &Words) -> Result<u64, Refusal>
    ensures { result ≡ owed_call (table_of o opened.now words.now) }
{
    if !valid_table(o, opened, words) {
        return Err(Refusal::BadSetting);
    }
    Ok(tags_owed(tag_limit(o.settings) as usize, opened, words))
}

impl Table {
    // A new table has no tag open. Beside 11 it holds what was given, and every call on it answers 11.
    #[tactic(auto, unfolding(crate::specs::OtherCalls::make_call, crate::specs::Tables::new_table))]
    pub fn make(settings: Settings, requester: u16) -> Making
        ensures { result ≡ make_call (record { settings = settings; requester = requester }) }
    {
        let table = Table {
            origin: Origin {
                settings,
                requester,
            },
            opened: [0; CAPACITY / 64],
            words: [0; 4 * CAPACITY],
        };
        let answer = if settings_listed(settings) {
            Ok(())
        } else {
            Err(Refusal::BadSetting)
        };
        Making { table, answer }
    }

    // Withdraws a read: its tag is free.
    pub fn withdraw(mut self, tag: u32) -> Withdrawal
        ensures { result ≡ withdraw_call self tag }
    {
        let answer = withdraw_lent(self.origin, &mut self.opened, &mut self.words, tag);
        Withdrawal {
            table: self,
            answer,
        }
    }

    // The doublewords still owed.
    pub fn owed(self) -> Result<u64, Refusal>
        ensures { result ≡ owed_call self }
    {
        owed_lent(self.origin, &self.opened, &self.words)
    }
}
