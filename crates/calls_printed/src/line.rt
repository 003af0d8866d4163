// A line that is being made, in its own room: it is written whole, with its newline.
use crate::LINE_MOST;
use text::decimal::put_decimal;
use text::hex::{put_hex, put_hex_fixed, put_hex_plain};
use text::output::put_text;
use text::words::part;

#[derive(Drop)]
pub(crate) struct Line {
    bytes: [u8; LINE_MOST],
    size: usize,
}

impl Line {
    pub(crate) fn new() -> Self {
        Line {
            bytes: [0; LINE_MOST],
            size: 0,
        }
    }

    pub(crate) fn add(&mut self, text: &[u8]) {
        self.size = put_text(text, self.size, &mut self.bytes);
    }

    pub(crate) fn add_number(&mut self, key: &[u8], n: u64) {
        self.add(key);
        self.size = put_decimal(n, self.size, &mut self.bytes);
    }

    // Two digits for each byte.
    pub(crate) fn add_bytes(&mut self, key: &[u8], bytes: &[u8]) {
        self.add(key);
        self.size = put_hex(bytes, self.size, &mut self.bytes);
    }

    // A number in hexadecimal, without leading zeros.
    pub(crate) fn add_hex(&mut self, key: &[u8], n: u64) {
        self.add(key);
        self.size = put_hex_plain(n, self.size, &mut self.bytes);
    }

    // A number in 16 hexadecimal digits.
    pub(crate) fn add_hex_whole(&mut self, key: &[u8], n: u64) {
        self.add(key);
        self.size = put_hex_fixed(n, 16, self.size, &mut self.bytes);
    }

    pub(crate) fn write(&mut self) {
        self.add(b"\n");
        io::write_all(1, part(&self.bytes, 0, self.size));
    }
}
