// The table of open reads by value: one read from its opening to its last piece, and one that is withdrawn
// (docs/TABLE.md). It is the read of P2: address 10020h, 64 doublewords, all bytes enabled, RCB 128 and MPS 128, whose
// pieces are 96, 128 and 32 bytes.
#![tactic(auto)]

use byte_enables::Access;
use reads::table::{Making, Table};
use reads_answers::TakeAnswer;
use reads_rules::request::ReadRequest;
use text::words::part;
use tlp::refusal::{Refusal, number_in};
use tlp::settings::Settings;

// ---- what is printed: the console's words (docs/CALLS.md)

fn print_new(rt: &impl Print, answer: Result<(), Refusal>) {
    let _ = println!(rt; "new code={}", number_in(answer));
}

fn print_open(rt: &impl Print, answer: Result<usize, Refusal>) {
    let _ = match answer {
        Ok(size) => println!(rt; "open size={size}"),
        Err(refusal) => println!(rt; "open code={}", refusal.number()),
    };
}

fn print_take(rt: &impl Print, answer: TakeAnswer) {
    let _ = match answer {
        TakeAnswer::More => println!(rt; "take more"),
        TakeAnswer::Done => println!(rt; "take done"),
        TakeAnswer::Failed(status) => println!(rt; "take failed status={status}"),
        TakeAnswer::Poisoned => println!(rt; "take poisoned"),
        TakeAnswer::Unread(refusal) | TakeAnswer::Refused(refusal) => {
            println!(rt; "take code={}", refusal.number())
        }
    };
}

fn print_withdraw(rt: &impl Print, answer: Result<(), Refusal>) {
    let _ = println!(rt; "withdraw code={}", number_in(answer));
}

fn print_owed(rt: &impl Print, answer: Result<u64, Refusal>) {
    let _ = match answer {
        Ok(n) => println!(rt; "owed dw={n}"),
        Err(refusal) => println!(rt; "owed code={}", refusal.number()),
    };
}

// ---- calls: each is given the table that the last one handed back, and says what is then owed

fn new_table() -> Making {
    let settings = Settings {
        mps: 128,
        mrrs: 512,
        rcb: 128,
    };
    Table::make(settings, 0x0100)
}

// Opens the read on tag 5, its window at the store's start.
fn open(rt: &impl Print, t: Table, store: &[u8]) -> Table {
    let request = ReadRequest {
        access: Access {
            address: 0x10020,
            length: 64,
            first: 0b1111,
            last: 0b1111,
        },
        traffic_class: 0,
        attributes: 0,
        start: 0,
    };
    let mut header = [0u8; 12];
    let opening = t.open(request, 5, store, &mut header);
    print_open(rt, opening.answer);
    print_owed(rt, opening.table.owed());
    opening.table
}

// A completion of the read, up to 128 bytes of payload, each of them the same byte. Its completer has the ID 0200.
fn completion(length: u8, byte_count: u32, lower_address: u8, byte: u8) -> [u8; 140] {
    let mut packet = [byte; 140];
    packet[0] = 0x4a;
    packet[1] = 0;
    packet[2] = 0;
    packet[3] = length;
    packet[4] = 0x02;
    packet[5] = 0x00;
    packet[6] = (byte_count / 256 % 16) as u8;
    packet[7] = (byte_count % 256) as u8;
    packet[8] = 0x01;
    packet[9] = 0x00;
    packet[10] = 5;
    packet[11] = lower_address;
    packet
}

fn take(
    rt: &impl Print,
    t: Table,
    length: u8,
    byte_count: u32,
    lower_address: u8,
    byte: u8,
    store: &mut [u8],
) -> Table {
    let packet = completion(length, byte_count, lower_address, byte);
    let taking = t.take(part(&packet, 0, 12 + 4 * usize::from(length)), store);
    print_take(rt, taking.answer);
    print_owed(rt, taking.table.owed());
    taking.table
}

fn withdraw(rt: &impl Print, t: Table) -> Table {
    let withdrawal = t.withdraw(5);
    print_withdraw(rt, withdrawal.answer);
    print_owed(rt, withdrawal.table.owed());
    withdrawal.table
}

// ---- the two reads

// P4: a first piece of 32 bytes is 33 at RCB 128.
// P3: the pieces have Byte Count 256, 160, 32 and Lower Address 32, 0, 0.
fn take_whole(rt: &impl Print, t: Table, store: &mut [u8]) -> Table {
    let mut next = take(rt, t, 8, 256, 32, 9, store);
    next = take(rt, next, 24, 256, 32, 1, store);
    next = take(rt, next, 32, 160, 0, 2, store);
    take(rt, next, 8, 32, 0, 3, store)
}

// The first byte of each piece.
fn print_store(rt: &impl Print, store: &[u8; 256]) {
    let _ = println!(rt; "byte 0: {}", store[0]);
    let _ = println!(rt; "byte 96: {}", store[96]);
    let _ = println!(rt; "byte 224: {}", store[224]);
}

fn main(rt: HostRuntime) {
    let mut store = [0u8; 256];
    let made = new_table();
    print_new(&rt, made.answer);
    let mut t = open(&rt, made.table, &store);
    t = take_whole(&rt, t, &mut store);
    print_store(&rt, &store);
    t = open(&rt, t, &store);
    t = withdraw(&rt, t);
    withdraw(&rt, t);
}
