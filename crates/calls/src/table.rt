// Lines that call the table, which is changed in place. Each answers None for a bad line, of which nothing is done.
ghost use Rattle.std.specs.Prelude.{◌≤◌, IfSome};

use crate::field::{last_value, only_value};
use crate::form::{read_part, settings_part};
use calls_printed::LINE_MOST;
use calls_printed::print::print_owed;
use calls_printed::table::{make_new, open_into, take_packet, withdraw_tag};
use reads::table::Table;
use reads_rules::origin::Origin;
use reads_rules::request::ReadRequest;
use text::fields::{decimal_after, hex_after};
use text::hex::hex_bytes;
use text::number::{MOST_32, MOST_64};
use text::words::part;

fn origin_in(line: &[u8]) -> Option<Origin> {
    let front = settings_part(line, b"new mps=")?;
    let requester = last_value(line, hex_after(line, front.next, b" req=", 4)?)?;
    Some(Origin {
        settings: front.settings,
        requester: requester as u16,
    })
}

pub(crate) fn run_new(line: &[u8], t: &mut Table, store: &mut [u8]) -> Option<()> {
    *t = make_new(origin_in(line)?, store);
    Some(())
}

// The most bytes of an output.
const OUT_MOST: usize = 32;

// A read to be opened on a tag, and the size of the output.
#[derive(Clone, Copy)]
struct Asked {
    request: ReadRequest,
    tag: u32,
    room: usize,
}

fn open_in(line: &[u8]) -> Option<Asked>
    ensures { IfSome result (λ a. a.room ≤ 32) }
{
    let front = read_part(line, 0, b"open addr=")?;
    let tag = decimal_after(line, front.next, b" tag=", MOST_32)?;
    let start = decimal_after(line, tag.next, b" start=", MOST_64)?;
    let room = last_value(
        line,
        decimal_after(line, start.next, b" out=", OUT_MOST as u64)?,
    )?;
    let mut request = front.request;
    request.start = start.value;
    Some(Asked {
        request,
        tag: tag.value as u32,
        room: room as usize,
    })
}

pub(crate) fn run_open(line: &[u8], t: &mut Table, store: &[u8]) -> Option<()> {
    let a = open_in(line)?;
    let mut space = [238u8; OUT_MOST];
    *t = open_into(a.request, a.tag, *t, store, &mut space[..a.room]);
    Some(())
}

// The packet whose digits follow the key up to the line's end, laid over the front of a space.
fn packet_in<'a>(line: &[u8], space: &'a mut [u8]) -> Option<&'a [u8]> {
    let digits = line.strip_prefix(b"take tlp=")?;
    let n = hex_bytes(digits, space)?;
    Some(part(space, 0, n))
}

pub(crate) fn run_take(line: &[u8], t: &mut Table, store: &mut [u8]) -> Option<()> {
    let mut space = [0u8; LINE_MOST / 2];
    let packet = packet_in(line, &mut space)?;
    *t = take_packet(packet, *t, store);
    Some(())
}

pub(crate) fn run_withdraw(line: &[u8], t: &mut Table) -> Option<()> {
    let tag = only_value(line, b"withdraw tag=", MOST_32)?;
    *t = withdraw_tag(tag as u32, *t);
    Some(())
}

pub(crate) fn run_owed(line: &[u8], t: &Table) -> Option<()> {
    if line != b"owed".as_slice() {
        return None;
    }
    print_owed(t.owed().map_err(|refusal| refusal.number()));
    Some(())
}
