// A turn: a block is read, what it gives is laid into the output's buffer, and that is printed; and the end. Only
// read_block reads and only print writes; both say so on standard error where that fails.
ghost use Rattle.std.specs.Prelude.{◌≡◌, ◌⊎◌, ◌+◌, ◌-◌, ◌≤◌, length, IfSome};
ghost use Rattle.text.specs.Words.{part};
ghost use Rattle.decode.specs.Turns.{ended_run, stopped_run, after_step, kept_bytes, step_text, end_text};
ghost use Rattle.decode.specs.Turns.{stage_in, block_in, turn_stage, turn_text, Reached, Prints};
ghost use Rattle.decode.specs.Inner.Sizes.{input_room, lines_most, Counted, Ready};

use crate::OUTPUT_ROOM;
use crate::run::{Run, advanced, ended, stopped};
use capture_blocks::{decode_block, decode_end, put_totals_of};
use std::io::{Read, Write};
use text::buffer::move_to_front;
use text::words::part;

// Says on standard error what failed, and why.
fn say_failed(rt: &impl Eprint, what: &str, why: std::io::Error) {
    let _ = eprintln!(rt; "{what}: {why}");
}

// Reads once, behind the kept bytes: how many bytes it moved, none at the end of the input. Says so where it fails.
pub(crate) fn read_block(
    rt: &impl Eprint,
    input: &mut impl Read,
    kept: usize,
    buf: &mut [u8],
) -> Option<usize>
    requires kept_in_bounds { kept ≤ length buf.old }
    requires buf_len { length buf.old ≡ input_room }
    ensures answer { IfSome result (λ n. n ≤ length buf.old - kept) }
    ensures front { part buf.new 0 kept ≡ part buf.old 0 kept }
{
    match input.read(&mut buf[kept..]) {
        Ok(n) => Some(n),
        Err(why) => {
            say_failed(rt, "read", why);
            None
        }
    }
}

// How many bytes at the front of the output are to be printed, and the run to go on with once they are. Its fields are
// private, so that main comes to that run by print alone: no text is left out, and they are printed in turn.
#[derive(Clone, Copy)]
pub(crate) struct Laid {
    run: Run,
    written: usize,
}

// Nothing is to be printed.
fn silent(run: Run) -> Laid
    ensures { result ≡ record { run = run; written = 0 } }
{
    Laid { run, written: 0 }
}

// Decodes the first n bytes of buf over the front of out, and moves what they leave to the front of buf. Counted stays
// a clause, no invariant of Run: the run after the last step may count more.
fn lay_step(run: Run, buf: &mut [u8], n: usize, out: &mut [u8; OUTPUT_ROOM]) -> Laid
    requires n_in_bounds { n ≤ length buf.old }
    requires n_le_input_room { n ≤ input_room }
    requires counted { Counted lines_most run }
    ensures run { result.run ≡ after_step run (part buf.old 0 n) }
    ensures kept { part buf.new 0 result.run.kept ≡ kept_bytes run.progress (part buf.old 0 n) }
    ensures text { part out.new 0 result.written ≡ step_text run.progress (part buf.old 0 n) }
{
    match decode_block(run.progress, &buf[0..n], out) {
        // Never, which the proof shows: out has room for whatever n bytes print.
        Err(_) => silent(stopped()),
        Ok(step) => {
            move_to_front(buf, step.used, n);
            Laid {
                run: advanced(run, step, n - step.used),
                written: step.written,
            }
        }
    }
}

// After a read behind the kept bytes that answered so: lays what it gave.
pub(crate) fn lay_read(
    run: Run,
    answered: Option<usize>,
    buf: &mut [u8],
    out: &mut [u8; OUTPUT_ROOM],
) -> Laid
    requires ready { Ready run buf.old out.old }
    requires moved { IfSome answered (λ n. n ≤ length buf.old - run.kept) }
    ensures stage { stage_in result.run buf.new
        ≡ turn_stage (stage_in run buf.old) (block_in run buf.old answered) answered }
    ensures text { part out.new 0 result.written
        ≡ turn_text (stage_in run buf.old) (block_in run buf.old answered) answered }
    ensures counted { Counted (run.lines + input_room) result.run }
{
    match answered {
        None => silent(stopped()),
        // Not by a pattern Some(0): the check then has no fact n ≢ 0 for the arm behind it.
        Some(n) => {
            if n == 0 {
                silent(ended(run))
            } else {
                lay_step(run, buf, run.kept + n, out)
            }
        }
    }
}

// Writes what was laid, and says so where that fails; gives the run to go on with.
pub(crate) fn print(rt: &(impl Print + Eprint), laid: Laid, out: &[u8]) -> Run
    requires { Prints laid.run (part out.now 0 laid.written) }
    ensures { (result ≡ laid.run) ⊎ (result ≡ stopped_run) }
{
    match std::io::writer(rt).write_all(part(out, 0, laid.written)) {
        Ok(()) => laid.run,
        Err(why) => {
            say_failed(rt, "write", why);
            stopped()
        }
    }
}

// At the end of the input: lays what the kept bytes give, and the totals.
pub(crate) fn lay_end(run: Run, rest: &[u8], out: &mut [u8; OUTPUT_ROOM]) -> Laid
    requires counted { Counted lines_most run }
    ensures run { result.run ≡ ended_run run }
    ensures text { part out.new 0 result.written ≡ end_text run rest.now }
{
    match decode_end(run.progress, rest, out) {
        // Never, which the proof shows: out has room for a line.
        Err(_) => silent(stopped()),
        Ok(step) => {
            let last = advanced(run, step, 0);
            let at = step.written;
            Laid {
                run: ended(run),
                written: put_totals_of(run.progress, last.lines, last.refused, at, out),
            }
        }
    }
}

// Prints what the kept bytes give at the end of the input, and the totals.
pub(crate) fn finish(rt: &(impl Print + Eprint), run: Run, buf: &[u8], out: &mut [u8; OUTPUT_ROOM])
    requires counted { Counted lines_most run }
    requires reached { Reached (stage_in run buf.now) }
{
    let laid = lay_end(run, part(buf, 0, run.kept), out);
    print(rt, laid, out);
}
