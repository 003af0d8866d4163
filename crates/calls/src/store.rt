// Lines about the store. Each answers None for a bad line, of which nothing is done.
use crate::console::STORE_MOST;
use crate::field::{last_value, only_value};
use calls_printed::checksum::checksum;
use calls_printed::print::{print_bytes, print_checksum, print_number};
use text::fields::decimal_after;
use text::number::{MOST_8, MOST_64};

// How many bytes are lent from here on.
pub(crate) fn run_store(line: &[u8], store: &mut [u8]) -> Option<usize> {
    let len = only_value(line, b"store len=", STORE_MOST as u64)?;
    store.fill(0);
    print_number(b"store len=", len);
    Some(len as usize)
}

pub(crate) fn run_fill(line: &[u8], store: &mut [u8]) -> Option<()> {
    let byte = only_value(line, b"fill byte=", MOST_8)?;
    store.fill(byte as u8);
    print_number(b"fill byte=", byte);
    Some(())
}

// The most bytes that a line shows.
const SHOWN_MOST: u64 = 4096;

// The part of the store that a line names.
fn shown<'a>(line: &[u8], store: &'a [u8]) -> Option<&'a [u8]> {
    let from = decimal_after(line, 0, b"bytes from=", MOST_64)?;
    let len = last_value(line, decimal_after(line, from.next, b" len=", SHOWN_MOST)?)?;
    store.get(from.value as usize..)?.get(..len as usize)
}

pub(crate) fn run_bytes(line: &[u8], store: &[u8]) -> Option<()> {
    print_bytes(shown(line, store)?);
    Some(())
}

pub(crate) fn run_sum(line: &[u8], store: &[u8]) -> Option<()> {
    if line != b"sum".as_slice() {
        return None;
    }
    print_checksum(checksum(store));
    Some(())
}
