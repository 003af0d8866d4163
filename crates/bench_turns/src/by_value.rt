// Turns by value: each call is given the table as the last one handed it back. Both kinds of turn are in one loop, as
// in place: a function between the loop and the calls would copy the table.
use crate::code::{take_turn_code, withdraw_turn_code};
use crate::setup::read_of;
use crate::work::{Turn, Work};
use reads::table::Table;

// The number of the first call that is refused, which code keeps; u is the table.
pub(crate) fn run_turns(
    t: Table,
    w: Work,
    bytes: &[u8],
    room: &[u8],
    store: &mut [u8],
    out: &mut [u8],
) -> Option<u32> {
    let mut u = t;
    let q = read_of(w.size);
    let mut code = None;
    for _ in 0..w.turns {
        // Part by part: with the parts named in place, one of the programs was slower by a fifth.
        let a = u.open(q, w.tag, room, out);
        let x = a.answer;
        let v = a.table;
        if w.turn == Turn::Take {
            let b = v.take(bytes, store);
            let y = b.answer;
            u = b.table;
            code = take_turn_code(code, x, y);
        } else {
            let b = v.withdraw(w.tag);
            let y = b.answer;
            u = b.table;
            code = withdraw_turn_code(code, x, y);
        }
    }
    code
}
