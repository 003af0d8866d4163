// Decodes a capture: standard input to standard output.
#![tactic(auto)]

mod run;
mod turn;

use crate::run::first_run;
use crate::turn::{finish, lay_read, print, read_block};

// A proved loop has to end. 2 to the power 47 turns of at most 65,536 lines give at most 2 to the power 63, so that no
// sum overflows. Each turn reads at least one byte, so that they are not used up: even byte by byte they last for 128
// TiB. Were they used up, the input would end there: what is printed is the decoding of what was read.
const TURNS: u64 = 140737488355328;

// PRINTED_EACH bytes for each byte of the input's buffer: what decode_block asks for.
pub(crate) const OUTPUT_ROOM: usize = 524288;

fn main(rt: HostRuntime) {
    let mut input = rt.stdin();
    let mut buf = io::large_buffer();
    let mut out = [0u8; OUTPUT_ROOM];
    let mut run = first_run();
    for turn in 0..TURNS {
        let answered = read_block(&rt, &mut input, run.kept, &mut buf);
        let laid = lay_read(run, answered, &mut buf, &mut out);
        run = print(&rt, laid, &out);
        if !run.more {
            break;
        }
    }
    finish(&rt, run, &buf, &mut out);
}
