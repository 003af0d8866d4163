// Taking a completion.
ghost use Rattle.std.specs.Prelude.{◌≡◌, ◌+◌, ◌≤◌, length};
ghost use Rattle.tlp.specs.Rows.{first};
ghost use Rattle.tlp.specs.Refusals.{checked};
ghost use Rattle.tlp_read.specs.Read.{read_rows};
ghost use Rattle.reads_answers.specs.Takes.{read_in};
ghost use Rattle.reads.specs.Tables.{table_of};
ghost use Rattle.reads.specs.TakeCall.{advanced, store_given, take_call, take_store};
ghost use Rattle.reads.specs.Lent.{taking_of};
ghost use Rattle.reads.specs.Inner.Steps.{kept, record_given, other_answer, takes};
ghost use Rattle.reads.specs.Inner.Steps.{piece_outcome, completion_outcome, take_outcome, outcome_of};
ghost use Rattle.reads.specs.Inner.Steps.{piece_laid, completion_laid, take_laid, laid_of};

use crate::table::{Table, Taking, state_at, valid_table};
use bits::word::byte_at;
use reads_answers::{TakeAnswer, piece_answer, read_in};
use reads_rules::origin::Origin;
use reads_rules::piece::{Piece, piece_of};
use reads_rules::read::Read;
use reads_slots::record::put_state;
use reads_store::store_piece;
use reads_words::tag_set::TagSet;
use reads_words::words::Words;
use tlp::refusal::Refusal;
use tlp::settings::Settings;
use tlp_read::check;
use tlp_read::completion::{completion_fault, completion_packet, has_completion};

// A record after n doublewords more.
fn advance(x: Option<Read>, n: u32) -> Option<Read>
    requires { (read_in x).taken + n ≤ (read_in x).request.access.length }
    ensures { result ≡ advanced x n }
{
    match x {
        None => None,
        Some(r) => Some(Read {
            taken: r.taken + n,
            ..r
        }),
    }
}

// What bytes do: the answer, and the length of the completion that was read, else 0; More alone looks at it.
#[derive(Clone, Copy)]
pub(crate) struct Outcome {
    pub answer: TakeAnswer,
    pub length: u32,
}

// What does not change a record.
fn kept(answer: TakeAnswer) -> Outcome
    ensures { result ≡ kept answer }
{
    Outcome { answer, length: 0 }
}

// The record after an answer; n is the completion's length.
fn record_given(a: TakeAnswer, x: Option<Read>, n: u32) -> Option<Read>
    requires { a ≡ TakeAnswer.More → (read_in x).taken + n ≤ (read_in x).request.access.length }
    ensures { result ≡ record_given a x n }
{
    match a {
        TakeAnswer::More => advance(x, n),
        TakeAnswer::Done | TakeAnswer::Failed(_) | TakeAnswer::Poisoned => None,
        TakeAnswer::Unread(_) | TakeAnswer::Refused(_) => x,
    }
}

// The store after an answer; r is the read that the completion's tag holds.
fn store_given(a: TakeAnswer, r: Read, payload: &[u8], store: &mut [u8])
    ensures { store.new ≡ store_given a r payload.now store.old }
{
    if matches!(a, TakeAnswer::More | TakeAnswer::Done) {
        store_piece(r.request, r.taken, payload, store);
    }
}

// The answer to bytes that hold no completion: the reader's refusal, or 29.
fn other_answer(settings: Settings, bytes: &[u8]) -> TakeAnswer
    ensures { result ≡ other_answer (checked (first (read_rows settings bytes.now))) }
{
    match check(settings, bytes) {
        Err(r) => TakeAnswer::Unread(r),
        Ok(()) => TakeAnswer::Refused(Refusal::NotACompletion),
    }
}

// What a completion that was read does; x is the record of its tag.
fn piece_outcome(o: Origin, x: Option<Read>, c: Piece, payload: &[u8], store: &mut [u8]) -> Outcome
    ensures value { result ≡ piece_outcome o x c (length store.old) }
    ensures store_after { store.new ≡ piece_laid o x c payload.now store.old }
{
    let answer = piece_answer(o, x, c, store.len() as u64);
    store_given(answer, read_in(x), payload, store);
    Outcome {
        answer,
        length: c.length,
    }
}

// What bytes do as a completion.
fn completion_outcome(o: Origin, x: Option<Read>, bytes: &[u8], store: &mut [u8]) -> Outcome
    ensures value { result ≡ completion_outcome o x bytes.now (length store.old) }
    ensures store_after { store.new ≡ completion_laid o x bytes.now store.old }
{
    let c = piece_of(completion_packet(bytes));
    match completion_fault(o.settings.mps, c.length, bytes) {
        Err(r) => kept(TakeAnswer::Unread(r)),
        Ok(()) => piece_outcome(o, x, c, &bytes[12..12 + 4 * c.length as usize], store),
    }
}

// What bytes do; x is the record of the tag that byte 10 names. A valid table has listed settings, so a completion is
// not read with a second test of these.
#[tactic(auto, unfolding(crate::specs::Inner::Steps::take_outcome, crate::specs::Inner::Steps::take_laid))]
fn take_outcome(valid: bool, o: Origin, x: Option<Read>, bytes: &[u8], store: &mut [u8]) -> Outcome
    ensures value { result ≡ take_outcome valid o x bytes.now (length store.old) }
    ensures store_after { store.new ≡ take_laid valid o x bytes.now store.old }
{
    if !valid {
        kept(TakeAnswer::Refused(Refusal::BadSetting))
    } else if !has_completion(bytes) {
        kept(other_answer(o.settings, bytes))
    } else {
        completion_outcome(o, x, bytes, store)
    }
}

// What bytes do to the table that the parts make; tag is the one that byte 10 names.
fn outcome_of(
    o: Origin,
    opened: &TagSet,
    words: &Words,
    tag: u32,
    bytes: &[u8],
    store: &mut [u8],
) -> Outcome
    ensures value { result ≡ outcome_of (table_of o opened.now words.now) tag
        bytes.now (length store.old) }
    ensures store_after { store.new
        ≡ laid_of (table_of o opened.now words.now) tag
        bytes.now store.old }
{
    let valid = valid_table(o, opened, words);
    take_outcome(valid, o, state_at(o, opened, words, tag), bytes, store)
}

// Whether a record is stored.
fn takes(a: TakeAnswer) -> bool
    ensures { result ≡ takes a }
{
    !matches!(a, TakeAnswer::Unread(_) | TakeAnswer::Refused(_))
}

// Takes a packet, over what is lent of a table. Set and words change where it is accepted, and there alone. A
// completion has its tag in byte 10; what is none changes no record, so it does not matter which one is looked at.
pub fn take_lent(
    o: Origin,
    opened: &mut TagSet,
    words: &mut Words,
    bytes: &[u8],
    store: &mut [u8],
) -> TakeAnswer
    ensures result_after { taking_of o opened.new words.new result
        ≡ take_call (table_of o opened.old words.old)
        bytes.now (length store.old) }
    ensures store_after { store.new
        ≡ take_store (table_of o opened.old words.old)
        bytes.now store.old }
{
    let tag = u32::from(byte_at(bytes, 10));
    let done = outcome_of(o, opened, words, tag, bytes, store);
    let answer = done.answer;
    if !takes(answer) {
        return answer;
    }
    let x = record_given(answer, state_at(o, opened, words, tag), done.length);
    put_state(opened, words, tag as usize, x);
    answer
}

impl Table {
    // Takes a packet: its enabled bytes go into the store where it is answered More or Done.
    pub fn take(mut self, bytes: &[u8], store: &mut [u8]) -> Taking
        ensures value { result ≡ take_call self bytes.now (length store.old) }
        ensures store_after { store.new ≡ take_store self bytes.now store.old }
    {
        let answer = take_lent(self.origin, &mut self.opened, &mut self.words, bytes, store);
        Taking {
            table: self,
            answer,
        }
    }
}
