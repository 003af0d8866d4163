// Lines that reach into the table, unchecked. Each answers None for a bad line, of which nothing is done.
use crate::field::{last_value, only_value};
use crate::form::{read_part, settings_part};
use calls_printed::print::{print_record, print_words};
use reads::table::{Table, tag_limit};
use reads_rules::origin::Origin;
use reads_rules::read::Read;
use reads_slots::record::{put_state, record_at};
use text::fields::decimal_after;
use text::number::{MOST_32, MOST_64};

// Whether a table may open a tag.
fn may_open(o: Origin, tag: u64) -> bool {
    tag < u64::from(tag_limit(o.settings))
}

pub(crate) fn run_record(line: &[u8], t: &Table) -> Option<()> {
    let tag = only_value(line, b"record tag=", MOST_32)?;
    if !may_open(t.origin, tag) {
        return None;
    }
    print_record(tag, record_at(&t.opened, &t.words, tag as usize));
    Some(())
}

// What a line puts at a tag.
#[derive(Clone, Copy)]
struct Forced {
    tag: u64,
    read: Read,
}

fn force_in(line: &[u8]) -> Option<Forced> {
    let tag = decimal_after(line, 0, b"force tag=", MOST_32)?;
    let front = read_part(line, tag.next, b" addr=")?;
    let start = decimal_after(line, front.next, b" start=", MOST_64)?;
    let taken = last_value(line, decimal_after(line, start.next, b" taken=", MOST_32)?)?;
    let mut request = front.request;
    request.start = start.value;
    Some(Forced {
        tag: tag.value,
        read: Read {
            request,
            taken: taken as u32,
        },
    })
}

pub(crate) fn run_force(line: &[u8], t: &mut Table) -> Option<()> {
    let f = force_in(line)?;
    if !may_open(t.origin, f.tag) {
        return None;
    }
    put_state(&mut t.opened, &mut t.words, f.tag as usize, Some(f.read));
    print_words(b"force");
    Some(())
}

pub(crate) fn run_settings(line: &[u8], t: &mut Table) -> Option<()> {
    let front = settings_part(line, b"settings mps=")?;
    if front.next != line.len() {
        return None;
    }
    t.origin.settings = front.settings;
    print_words(b"settings");
    Some(())
}
