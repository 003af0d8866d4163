// What a line prints, by Line and not by Display: public functions here are given no handle to print with. These
// functions answer nothing.
use crate::line::Line;
use byte_enables::Access;
use reads_answers::TakeAnswer;
use reads_rules::read::Read;
use reads_rules::request::ReadRequest;
use tlp::refusal::{Refusal, number_in};

// A line of words.
pub fn print_words(words: &[u8]) {
    let mut line = Line::new();
    line.add(words);
    line.write();
}

// A line of a key and its number.
pub fn print_number(key: &[u8], n: u64) {
    let mut line = Line::new();
    line.add_number(key, n);
    line.write();
}

// What a line prints that has no form or asks for too much.
pub fn print_bad() {
    print_words(b"bad");
}

pub(crate) fn print_new(answer: Result<(), Refusal>) {
    print_number(b"new code=", u64::from(number_in(answer)));
}

pub(crate) fn print_open(answer: Result<usize, Refusal>, out: &[u8]) {
    let mut line = Line::new();
    line.add_number(b"open code=", u64::from(number_in(answer)));
    line.add_bytes(b" out=", out);
    line.write();
}

pub(crate) fn print_take(a: TakeAnswer) {
    match a {
        TakeAnswer::More => print_words(b"take more"),
        TakeAnswer::Done => print_words(b"take done"),
        TakeAnswer::Failed(status) => print_number(b"take failed status=", u64::from(status)),
        TakeAnswer::Poisoned => print_words(b"take poisoned"),
        TakeAnswer::Unread(refusal) | TakeAnswer::Refused(refusal) => {
            print_number(b"take code=", u64::from(refusal.number()))
        }
    }
}

pub(crate) fn print_withdraw(answer: Result<(), Refusal>) {
    print_number(b"withdraw code=", u64::from(number_in(answer)));
}

// What `owed` answered, or a number that it is refused by, whatever number it is.
pub fn print_owed(answer: Result<u64, u32>) {
    match answer {
        Ok(n) => print_number(b"owed dw=", n),
        Err(number) => print_number(b"owed code=", u64::from(number)),
    }
}

fn add_access(line: &mut Line, a: Access) {
    line.add_hex(b" addr=", a.address);
    line.add_number(b" len=", u64::from(a.length));
    line.add_number(b" first=", u64::from(a.first));
    line.add_number(b" last=", u64::from(a.last));
}

fn add_request(line: &mut Line, q: ReadRequest) {
    add_access(line, q.access);
    line.add_number(b" tc=", u64::from(q.traffic_class));
    line.add_number(b" attr=", u64::from(q.attributes));
    line.add_number(b" start=", q.start);
}

fn add_state(line: &mut Line, x: Option<Read>) {
    match x {
        None => line.add(b" free"),
        Some(r) => {
            add_request(line, r.request);
            line.add_number(b" taken=", u64::from(r.taken));
        }
    }
}

// What is kept of a tag.
pub fn print_record(tag: u64, x: Option<Read>) {
    let mut line = Line::new();
    line.add_number(b"record tag=", tag);
    add_state(&mut line, x);
    line.write();
}

// Bytes of the store; 4,096 at most, so that they fit.
pub fn print_bytes(bytes: &[u8]) {
    let mut line = Line::new();
    line.add_bytes(b"bytes ", bytes);
    line.write();
}

// The store's checksum.
pub fn print_checksum(sum: u64) {
    let mut line = Line::new();
    line.add_hex_whole(b"sum=", sum);
    line.write();
}
