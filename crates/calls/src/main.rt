// A console for the table of open reads: a script of calls on standard input, a line of output for each of its lines.
#![tactic(auto)]

mod console;
mod field;
mod form;
mod run;
mod script;
mod slots;
mod store;
mod table;

ghost use Rattle.std.specs.Prelude.{◌+◌, ◌≤◌, length};
ghost use Rattle.calls.specs.Inner.Sizes.{line_most};

use crate::console::{STORE_FIRST, STORE_MOST, first_table};
use crate::script::{answer_lines, lines_end};
use calls_printed::LINE_MOST;
use calls_printed::print::print_bad;
use std::io::Read;
use text::buffer::move_to_front;

// Reads once, behind the bytes that are kept, and answers how many bytes came.
fn read_behind(input: &mut impl Read, buf: &mut [u8], kept: usize) -> usize
    requires { kept ≤ length buf.old }
    ensures { kept + result ≤ length buf.old }
{
    input.read(&mut buf[kept..]).unwrap_or(0)
}

// Keeps what has no end yet, from index used up to index n, and answers how many bytes that are.
// Of a line that is too long already, whatever follows, as many are kept as make it so.
fn keep_rest(buf: &mut [u8], used: usize, n: usize) -> usize
    requires { (used ≤ n) × (n ≤ length buf.old) }
    ensures { result ≤ line_most }
{
    let rest = LINE_MOST.min(n - used);
    move_to_front(buf, used, used + rest);
    rest
}

fn main(rt: HostRuntime) {
    let mut input = rt.stdin();
    let mut buf = io::large_buffer();
    let mut store = [0u8; STORE_MOST];
    let mut lent = STORE_FIRST;
    let mut t = first_table();
    // kept bytes at the front of buf are the start of a line that has no end yet.
    let mut kept: usize = 0;
    // No input is so long that these turns do not reach its end.
    for _ in 0..u64::MAX {
        let got = read_behind(&mut input, &mut buf, kept);
        let n = kept + got;
        let used = lines_end(&buf[..n]);
        answer_lines(&buf[..used], &mut t, &mut lent, &mut store);
        kept = keep_rest(&mut buf, used, n);
        if got == 0 {
            break;
        }
    }
    // A last line without a newline.
    if 0 < kept {
        print_bad();
    }
}
