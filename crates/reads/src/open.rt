// Opening a read.
ghost use Rattle.std.specs.Prelude.{◌≡◌, [], length};
ghost use Rattle.tlp.specs.Rows.{first};
ghost use Rattle.tlp.specs.Refusals.{checked};
ghost use Rattle.tlp_write.specs.Inner.Lay.{lay_answer, lay_out};
ghost use Rattle.reads.specs.Tables.{table_of};
ghost use Rattle.reads.specs.OpenCall.{header_packet, open_call, open_out};
ghost use Rattle.reads.specs.Lent.{opening_of};
ghost use Rattle.reads.specs.Inner.Steps.{rows_before12, rows_before24};

use crate::table::{Opening, Table, state_at, tag_limit, valid_table};
use reads_rules::origin::Origin;
use reads_rules::read::Read;
use reads_rules::request::{ReadRequest, request_fault, request_packet};
use reads_rules::window::place_fault;
use reads_slots::open_tags::window_taken;
use reads_slots::record::put_state;
use reads_words::tag_set::TagSet;
use reads_words::words::Words;
use tlp::refusal::Refusal;
use tlp_write::lay_packet;

// The first that holds of open's rows before 24; x is the tag's record.
fn fault_before_24(
    valid: bool,
    o: Origin,
    x: Option<Read>,
    q: ReadRequest,
    tag: u32,
    room: u64,
) -> Result<(), Refusal>
    ensures { result ≡ checked (first (rows_before24 valid o x q tag room)) }
{
    if !valid {
        return Err(Refusal::BadSetting);
    }
    request_fault(q)?;
    if tag_limit(o.settings) <= tag {
        return Err(Refusal::TagOverLimit);
    }
    if x.is_some() {
        return Err(Refusal::TagOpen);
    }
    place_fault(o.settings, q, room)
}

// The first that holds of open's rows before 12.
fn fault_before_12(
    o: Origin,
    opened: &TagSet,
    words: &Words,
    q: ReadRequest,
    tag: u32,
    room: u64,
) -> Result<(), Refusal>
    ensures { result ≡ checked (first (rows_before12 (table_of o opened.now words.now) q tag room)) }
{
    let valid = valid_table(o, opened, words);
    fault_before_24(valid, o, state_at(o, opened, words, tag), q, tag, room)?;
    if window_taken(q, tag_limit(o.settings) as usize, opened, words) {
        return Err(Refusal::WindowOverlap);
    }
    Ok(())
}

// The header over the front of the output. Open has tested the request's fields, so the writer need not.
fn write_header(o: Origin, q: ReadRequest, tag: u8, out: &mut [u8]) -> Result<usize, Refusal>
    ensures value { result ≡ lay_answer o.settings.mps (header_packet o q tag) 0 (length out.old) }
    ensures out_after { out.new ≡ lay_out o.settings.mps (header_packet o q tag) [] out.old }
{
    lay_packet(
        o.settings.mps,
        request_packet(o.requester, tag, q),
        b"",
        out,
    )
}

// Opens a read, over what is lent of a table. Set and words change where it is accepted, and there alone.
pub fn open_lent(
    o: Origin,
    opened: &mut TagSet,
    words: &mut Words,
    q: ReadRequest,
    tag: u32,
    store: &[u8],
    out: &mut [u8],
) -> Result<usize, Refusal>
    ensures result_after { opening_of o opened.new words.new result
        ≡ open_call (table_of o opened.old words.old) q tag
        (length store.now) (length out.old) }
    ensures out_after { out.new
        ≡ open_out (table_of o opened.old words.old) q tag
        (length store.now) out.old }
{
    fault_before_12(o, opened, words, q, tag, store.len() as u64)?;
    let size = write_header(o, q, tag as u8, out)?;
    let x = Some(Read {
        request: q,
        taken: 0,
    });
    put_state(opened, words, tag as usize, x);
    Ok(size)
}

impl Table {
    // Opens a read and writes its header over the front of the output. The store is only measured.
    pub fn open(mut self, q: ReadRequest, tag: u32, store: &[u8], out: &mut [u8]) -> Opening
        ensures value { result ≡ open_call self q tag (length store.now) (length out.old) }
        ensures out_after { out.new ≡ open_out self q tag (length store.now) out.old }
    {
        let o = self.origin;
        let answer = open_lent(o, &mut self.opened, &mut self.words, q, tag, store, out);
        Opening {
            table: self,
            answer,
        }
    }
}
