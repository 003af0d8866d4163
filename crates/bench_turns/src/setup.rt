// The table that the turns start from.
use crate::work::Work;
use byte_enables::Access;
use reads::table::Table;
use reads_rules::read::Read;
use reads_rules::request::ReadRequest;
use reads_slots::record::put_state;
use tlp::settings::Settings;

// A read of whole doublewords, the last enables as its length wants them.
fn request(address: u64, length: u32, start: u64) -> ReadRequest {
    ReadRequest {
        access: Access {
            address,
            length,
            first: 0b1111,
            last: if length == 1 { 0b0000 } else { 0b1111 },
        },
        traffic_class: 0,
        attributes: 0,
        start,
    }
}

// The read of every turn, at the store's start.
pub(crate) fn read_of(size: u32) -> ReadRequest {
    request(65536, size / 4, 0)
}

// A table with other reads, of 64 bytes, open on the tags after the turns', round the 32 there are; their windows lie
// behind the turns'. The records are put in by hand, so that the table's calls have no caller beside the turns.
pub(crate) fn first_table(w: Work) -> Table {
    let m = Table::make(
        Settings {
            mps: 4096,
            mrrs: 4096,
            rcb: 64,
        },
        0x0100,
    );
    let mut t = m.table;
    for i in 0..w.others {
        let behind = 64 * u64::from(i);
        let q = request(131072 + behind, 16, 4096 + behind);
        let x = Some(Read {
            request: q,
            taken: 0,
        });
        put_state(
            &mut t.opened,
            &mut t.words,
            ((w.tag + 1 + i) % 32) as usize,
            x,
        );
    }
    t
}
