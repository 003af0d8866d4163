// The same turns with one table, u, lent to every call. Both kinds of turn are in one loop.
use crate::code::{take_turn_code, withdraw_turn_code};
use crate::setup::read_of;
use crate::work::{Turn, Work};
use reads::table::Table;
use reads_in_place::{open, take, withdraw};

// The number of the first call that is refused, which code keeps.
pub(crate) fn run_turns(
    t: Table,
    w: Work,
    bytes: &[u8],
    room: &[u8],
    store: &mut [u8],
    out: &mut [u8],
) -> Option<u32> {
    let mut u = t;
    let q = read_of(w.size);
    let mut code = None;
    for _ in 0..w.turns {
        let a = open(&mut u, q, w.tag, room, out);
        if w.turn == Turn::Take {
            code = take_turn_code(code, a, take(&mut u, bytes, store));
        } else {
            code = withdraw_turn_code(code, a, withdraw(&mut u, w.tag));
        }
    }
    code
}
