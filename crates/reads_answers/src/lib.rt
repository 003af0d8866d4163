// What take answers to a packet, from the record of its tag.
#![tactic(auto)]

ghost use Rattle.std.specs.Prelude.{◌≡◌};
ghost use Rattle.tlp.specs.Rows.{first};
ghost use Rattle.tlp.specs.Refusals.{checked};
ghost use Rattle.reads_answers.specs.Takes.{read_in, piece_rows, outcome, piece_answer};

use byte_enables::Access;
use reads_rules::continuation::{differs, legal, reported, status_bad, succeeds};
use reads_rules::origin::Origin;
use reads_rules::piece::Piece;
use reads_rules::read::Read;
use reads_rules::request::ReadRequest;
use reads_rules::validity::owed_of;
use reads_rules::window::holds_window;
use tlp::refusal::Refusal;

// What take answers: Failed with the status, Unread with the packet reader's own refusal, Refused with one of the
// table's. An enum of its own, no Result: four of its cases say what was taken.
#[derive(Clone, Copy, Debug, PartialEq, Eq)]
pub enum TakeAnswer {
    More,
    Done,
    Failed(u8),
    Poisoned,
    Unread(Refusal),
    Refused(Refusal),
}

// The read that a record holds; zeros where it is free.
pub fn read_in(x: Option<Read>) -> Read
    ensures { result ≡ read_in x }
{
    x.unwrap_or(Read {
        request: ReadRequest {
            access: Access {
                address: 0,
                length: 0,
                first: 0,
                last: 0,
            },
            traffic_class: 0,
            attributes: 0,
            start: 0,
        },
        taken: 0,
    })
}

// The first of 30 to 34 that holds. A failing status is answered before 33 and 34 are looked at.
#[tactic(auto, unfolding(tlp::specs::Rows::first, tlp::specs::Refusals::refusal))]
fn piece_fault(o: Origin, x: Option<Read>, c: Piece, room: u64) -> Result<(), Refusal>
    ensures { result ≡ checked (first (piece_rows o x c room)) }
{
    if c.requester != o.requester {
        return Err(Refusal::UnexpectedCompletion);
    }
    let Some(r) = x else {
        return Err(Refusal::UnexpectedCompletion);
    };
    if differs(r, c) {
        return Err(Refusal::ClassOrAttributesDiffer);
    }
    if status_bad(c) {
        return Err(Refusal::BadCompletionStatus);
    }
    if !succeeds(c) {
        return Ok(());
    }
    if !legal(o, r, c) {
        return Err(Refusal::NotAContinuation);
    }
    if !holds_window(r.request, room) {
        return Err(Refusal::BadStore);
    }
    Ok(())
}

// The answer to a completion that is not refused.
#[tactic(auto, unfolding(crate::specs::Takes::outcome))]
fn outcome(r: Read, c: Piece) -> TakeAnswer
    ensures { result ≡ outcome r c }
{
    if !succeeds(c) {
        TakeAnswer::Failed(reported(c.header.status))
    } else if c.poisoned {
        TakeAnswer::Poisoned
    } else if c.length == owed_of(r) {
        TakeAnswer::Done
    } else {
        TakeAnswer::More
    }
}

// The answer to a completion that was read.
#[tactic(auto, unfolding(crate::specs::Takes::piece_answer))]
pub fn piece_answer(o: Origin, x: Option<Read>, c: Piece, room: u64) -> TakeAnswer
    ensures { result ≡ piece_answer o x c room }
{
    match piece_fault(o, x, c, room) {
        Err(r) => TakeAnswer::Refused(r),
        Ok(()) => outcome(read_in(x), c),
    }
}
