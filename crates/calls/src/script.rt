// The lines of a script, one after the other.
ghost use Rattle.std.specs.Prelude.{◌≤◌, length};

use crate::console::Space;
use crate::run::run;
use calls_printed::LINE_MOST;
use calls_printed::print::print_bad;
use reads::table::Table;

// The index after the last newline: what follows it has no end yet.
pub(crate) fn lines_end(text: &[u8]) -> usize
    ensures { result ≤ length text.now }
{
    match text.iter().rposition(|b| *b == b'\n') {
        Some(i) => i + 1,
        None => 0,
    }
}

// Answers a line, which is given without its newline.
fn answer_line(line: &[u8], t: &mut Table, lent: &mut usize, store: &mut Space) {
    let answered = if line.len() < LINE_MOST {
        run(line, t, lent, store)
    } else {
        None
    };
    if answered.is_none() {
        print_bad();
    }
}

// Answers the lines of a text that ends with a newline, or is empty and has none.
pub(crate) fn answer_lines(text: &[u8], t: &mut Table, lent: &mut usize, store: &mut Space) {
    if let Some(lines) = text.strip_suffix(b"\n") {
        for line in lines.split(|b| *b == b'\n') {
            answer_line(line, t, lent, store);
        }
    }
}
