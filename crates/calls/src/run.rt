// One line: its first letters say which form it can have. A match, no table of closures: each form has its own
// arguments.
use crate::slots::{run_force, run_record, run_settings};
use crate::store::{run_bytes, run_fill, run_store, run_sum};
use crate::table::{run_new, run_open, run_owed, run_take, run_withdraw};
use bits::word::byte_at;
use reads::table::Table;
use text::words::part;

// Words that begin with o, by their second letter.
fn run_o(line: &[u8], t: &mut Table, store: &[u8]) -> Option<()> {
    match byte_at(line, 1) {
        b'p' => run_open(line, t, store),
        b'w' => run_owed(line, t),
        _ => None,
    }
}

fn run_f(line: &[u8], t: &mut Table, store: &mut [u8]) -> Option<()> {
    match byte_at(line, 1) {
        b'o' => run_force(line, t),
        b'i' => run_fill(line, store),
        _ => None,
    }
}

fn run_s(line: &[u8], t: &mut Table, lent: &mut usize, store: &mut [u8]) -> Option<()> {
    match byte_at(line, 1) {
        b'e' => run_settings(line, t),
        b't' => {
            *lent = run_store(line, store)?;
            Some(())
        }
        b'u' => run_sum(line, part(store, 0, *lent)),
        _ => None,
    }
}

// Words that no other begins like.
fn run_other(line: &[u8], t: &mut Table, lent: usize, store: &mut [u8]) -> Option<()> {
    match byte_at(line, 0) {
        b'w' => run_withdraw(line, t),
        b'n' => run_new(line, t, store),
        b'b' => run_bytes(line, part(store, 0, lent)),
        b'r' => run_record(line, t),
        _ => None,
    }
}

// Does what a line says, None for a bad one: table, store and lent are then as they were. The table is lent: an Option
// of it would be copied from call to call.
// So many bytes of the store are lent; only a line about the store changes how many.
pub(crate) fn run(line: &[u8], t: &mut Table, lent: &mut usize, store: &mut [u8]) -> Option<()> {
    let n = store.len().min(*lent);
    match byte_at(line, 0) {
        b't' => run_take(line, t, &mut store[..n]),
        b'o' => run_o(line, t, &store[..n]),
        b'f' => run_f(line, t, store),
        b's' => run_s(line, t, lent, store),
        _ => run_other(line, t, n, store),
    }
}
