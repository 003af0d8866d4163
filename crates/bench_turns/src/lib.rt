// Turns of calls on a table, by value, in place or over what is lent of it, for a program to be timed: each line of
// standard input says which and how many, each line of standard output what came of them. A program that turns one
// way alone has one caller of each of the table's cores, as a host has. In one that turns every way a core has two,
// the method and the lent turns; those of open and take stand apart there.
#![tactic(auto)]

mod by_value;
mod code;
mod in_place;
mod lent;
mod packet;
mod setup;
mod work;

use crate::packet::put_packet;
use crate::setup::first_table;
use crate::work::{Work, way_in, work_in};
use reads::table::Table;
use reads_rules::window::STORE_LIMIT;

// The longest store.
const STORE: usize = STORE_LIMIT as usize;

// The window of the turns: the largest read.
const WINDOW: usize = 4096;

// The completion that takes it whole: header and payload.
pub(crate) const PACKET: usize = 12 + WINDOW;

// The sum of the bytes of a store where the turns' window lies. It is far below 2^64; a sum that may wrap asks for no
// bound.
fn window_sum(store: &[u8; STORE]) -> u64 {
    let mut sum: u64 = 0;
    for b in &store[..WINDOW] {
        sum = sum.wrapping_add(u64::from(*b));
    }
    sum
}

// The number of the first call that is refused. Open only measures its store, so it is lent another of the same size.
fn turns_code(
    lent: bool,
    place: bool,
    w: Work,
    t: Table,
    bytes: &[u8; PACKET],
    store: &mut [u8; STORE],
    out: &mut [u8; 16],
) -> Option<u32> {
    let room = [0u8; STORE];
    let packet = &bytes[..12 + w.size as usize];
    if lent {
        lent::run_turns(t, w, packet, &room, store, out)
    } else if place {
        in_place::run_turns(t, w, packet, &room, store, out)
    } else {
        by_value::run_turns(t, w, packet, &room, store, out)
    }
}

// Does a line's work and prints what came of it: the number 0 where no call was refused.
fn run_work(lent: bool, place: bool, w: Work) {
    let mut bytes = [0u8; PACKET];
    let mut store = [0u8; STORE];
    let mut out = [0u8; 16];
    put_packet(w, &mut bytes);
    let t = first_table(w);
    let code = turns_code(lent, place, w, t, &bytes, &mut store, &mut out);
    io::write_all(1, b"code=");
    io::print_decimal(1, u64::from(code.unwrap_or(0)));
    io::write_all(1, b" sum=");
    io::print_decimal(1, window_sum(&store));
    io::write_all(1, b"\n");
}

// What a line says to do, from an index on.
fn run_rest(lent: bool, place: bool, line: &[u8], at: usize) {
    match work_in(line, at) {
        Some(w) => run_work(lent, place, w),
        None => print_bad(),
    }
}

fn print_bad() {
    io::write_all(1, b"bad\n");
}

// Flags and no enum: a flag that a program fixes reaches the turns as a constant, and the ways not taken are dropped
// before calls are compiled in.
fn run_line(named: bool, place: bool, line: &[u8]) {
    if !named {
        return run_rest(false, place, line, 0);
    }
    match way_in(line) {
        Some(way) => run_rest(way.lent, way.place, line, way.next),
        None => print_bad(),
    }
}

// Runs every line of the input. Of an empty one split would give one line, and behind a last newline one more.
fn run_lines(named: bool, place: bool) {
    let mut input = io::large_buffer();
    let n = io::read_full(0, &mut input);
    if n == 0 {
        return;
    }
    let text = &input[..n];
    for line in text
        .strip_suffix(b"\n")
        .unwrap_or(text)
        .split(|b| *b == b'\n')
    {
        run_line(named, place, line);
    }
}

// For a program that turns one way: runs the lines of standard input, in place or by value.
pub fn run(place: bool) {
    run_lines(false, place);
}

// For a program that turns every way: the same, each line the way that it names.
pub fn run_named() {
    run_lines(true, false);
}
