// The same turns over what is lent of a table: the cores are called without the methods.
use crate::code::{take_turn_code, withdraw_turn_code};
use crate::setup::read_of;
use crate::work::{Turn, Work};
use reads::open::open_lent;
use reads::table::{Table, withdraw_lent};
use reads::take::take_lent;

// The number of the first call that is refused, which code keeps.
pub(crate) fn run_turns(
    t: Table,
    w: Work,
    bytes: &[u8],
    room: &[u8],
    store: &mut [u8],
    out: &mut [u8],
) -> Option<u32> {
    let o = t.origin;
    let mut opened = t.opened;
    let mut words = t.words;
    let q = read_of(w.size);
    let mut code = None;
    for _ in 0..w.turns {
        let a = open_lent(o, &mut opened, &mut words, q, w.tag, room, out);
        if w.turn == Turn::Take {
            let b = take_lent(o, &mut opened, &mut words, bytes, store);
            code = take_turn_code(code, a, b);
        } else {
            let b = withdraw_lent(o, &mut opened, &mut words, w.tag);
            code = withdraw_turn_code(code, a, b);
        }
    }
    code
}
