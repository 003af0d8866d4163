// A line of input: `take|withdraw others=N size=N tag=N turns=N`, and where it names the way `value `, `place ` or
// `lent ` before.
ghost use Rattle.std.specs.Prelude.{◌≤◌};

use text::fields::{decimal_after, key_after};
use text::number::MOST_32;

// What a turn does with the read that it opened.
#[derive(Clone, Copy, Debug, PartialEq, Eq)]
pub(crate) enum Turn {
    Take,
    Withdraw,
}

// What is to be done: the kind of turn, how many other reads are open, the read's size in bytes, its tag, and how many
// turns.
#[derive(Clone, Copy)]
pub(crate) struct Work {
    pub turn: Turn,
    pub others: u32,
    pub size: u32,
    pub tag: u32,
    pub turns: u32,
    ghost others_in: { others ≤ 31 },
    ghost size_in: { size ≤ 4096 },
    ghost tag_in: { tag ≤ 31 },
}

// The kind of turn that a line's word names, and the index after it.
fn turn_in(line: &[u8], at: usize) -> Option<(Turn, usize)> {
    let take = key_after(line, at, b"take ").map(|next| (Turn::Take, next));
    take.or_else(|| key_after(line, at, b"withdraw ").map(|next| (Turn::Withdraw, next)))
}

// The way that a line names, and the index after its word.
#[derive(Clone, Copy, Debug, PartialEq, Eq)]
pub(crate) struct Way {
    pub lent: bool,
    pub place: bool,
    pub next: usize,
}

// The way that is named so, where the line begins with that.
fn way_named(line: &[u8], name: &[u8], lent: bool, place: bool) -> Option<Way> {
    key_after(line, 0, name).map(|next| Way { lent, place, next })
}

// The way that a line's first word names.
pub(crate) fn way_in(line: &[u8]) -> Option<Way> {
    way_named(line, b"lent ", true, false)
        .or_else(|| way_named(line, b"place ", false, true))
        .or_else(|| way_named(line, b"value ", false, false))
}

// The work of a line, from an index on: the line ends with its last number, and the size is one of whole doublewords,
// so that a read has it.
pub(crate) fn work_in(line: &[u8], at: usize) -> Option<Work> {
    let (turn, next) = turn_in(line, at)?;
    let others = decimal_after(line, next, b"others=", 31)?;
    let size = decimal_after(line, others.next, b" size=", 4096)?;
    let tag = decimal_after(line, size.next, b" tag=", 31)?;
    let turns = decimal_after(line, tag.next, b" turns=", MOST_32)?;
    if turns.next != line.len() || size.value == 0 || size.value % 4 != 0 {
        return None;
    }
    Some(Work {
        turn,
        others: others.value as u32,
        size: size.value as u32,
        tag: tag.value as u32,
        turns: turns.value as u32,
    })
}
