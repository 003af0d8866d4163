// Parts that several forms of a line have; next is the index after the last field of each.
use byte_enables::Access;
use reads_rules::request::ReadRequest;
use text::fields::{decimal_after, plain_hex_after};
use text::number::{MOST_8, MOST_32};
use tlp::settings::Settings;

#[derive(Clone, Copy)]
pub(crate) struct SettingsPart {
    pub settings: Settings,
    pub next: usize,
}

// The line begins with key.
pub(crate) fn settings_part(line: &[u8], key: &[u8]) -> Option<SettingsPart> {
    let mps = decimal_after(line, 0, key, MOST_32)?;
    let mrrs = decimal_after(line, mps.next, b" mrrs=", MOST_32)?;
    let rcb = decimal_after(line, mrrs.next, b" rcb=", MOST_32)?;
    Some(SettingsPart {
        settings: Settings {
            mps: mps.value as u32,
            mrrs: mrrs.value as u32,
            rcb: rcb.value as u32,
        },
        next: rcb.next,
    })
}

// A read but for its start, which open and force have at other places: it is 0 here.
#[derive(Clone, Copy)]
pub(crate) struct ReadPart {
    pub request: ReadRequest,
    pub next: usize,
}

// The address has the key, which stands at index at.
pub(crate) fn read_part(line: &[u8], at: usize, key: &[u8]) -> Option<ReadPart> {
    let address = plain_hex_after(line, at, key)?;
    let length = decimal_after(line, address.next, b" len=", MOST_32)?;
    let first = decimal_after(line, length.next, b" first=", MOST_8)?;
    let last = decimal_after(line, first.next, b" last=", MOST_8)?;
    let class = decimal_after(line, last.next, b" tc=", MOST_8)?;
    let attributes = decimal_after(line, class.next, b" attr=", MOST_8)?;
    Some(ReadPart {
        request: ReadRequest {
            access: Access {
                address: address.value,
                length: length.value as u32,
                first: first.value as u8,
                last: last.value as u8,
            },
            traffic_class: class.value as u8,
            attributes: attributes.value as u8,
            start: 0,
        },
        next: attributes.next,
    })
}
