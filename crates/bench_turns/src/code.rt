// The number that is kept over the turns: that of the first answer that is no success.
use reads_answers::TakeAnswer;
use tlp::refusal::Refusal;

// The number of a refusal.
fn refused<T: Copy>(answer: Result<T, Refusal>) -> Option<u32> {
    match answer {
        Ok(_) => None,
        Err(refusal) => Some(refusal.number()),
    }
}

// A turn's take answers Done; another answer without a number counts as 255.
fn undone(answer: TakeAnswer) -> Option<u32> {
    match answer {
        TakeAnswer::Done => None,
        TakeAnswer::More | TakeAnswer::Failed(_) | TakeAnswer::Poisoned => Some(255),
        TakeAnswer::Unread(refusal) | TakeAnswer::Refused(refusal) => Some(refusal.number()),
    }
}

// After a turn that takes its read.
pub(crate) fn take_turn_code(
    code: Option<u32>,
    a: Result<usize, Refusal>,
    b: TakeAnswer,
) -> Option<u32> {
    code.or(refused(a)).or(undone(b))
}

// After a turn that withdraws its read.
pub(crate) fn withdraw_turn_code(
    code: Option<u32>,
    a: Result<usize, Refusal>,
    b: Result<(), Refusal>,
) -> Option<u32> {
    code.or(refused(a)).or(refused(b))
}
