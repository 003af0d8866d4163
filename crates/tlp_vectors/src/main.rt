// Runs stored vectors through reader and writer, and prints what they answer. host/second makes the vectors,
// and the answers that the output is held to, from an implementation of its own. A line that asks for a reading is
//   r MPS MRRS RCB PACKET
// and one that asks for a writing
//   w MPS MRRS RCB ROOM LENGTH RECORD PAYLOAD
// with eight hexadecimal digits for a setting, four for the output's room and the record's length,
// and two for each byte.
#![tactic(auto)]

ghost use Rattle.std.specs.Prelude.{◌≤◌, ◌<◌, ◌^◌, length, IfSome};

use bits::word::byte_at;
use text::buffer::move_to_front;
use text::fields::{Field, hex_after};
use text::hex::{hex_bytes, put_hex};
use text::lines::line_end;
use text::words::{part, value_at};
use tlp::settings::Settings;
use tlp_record::places::RECORD_SIZE;

// The number of so many hexadecimal digits after a field. None after None.
fn hex_next(line: &[u8], before: Option<Field>, width: usize) -> Option<Field>
    ensures { IfSome result (λ f. f.value < 16 ^ width) }
{
    hex_after(line, before?.next, b" ", width)
}

// The value of a setting: 0 where there is none.
fn setting(field: Option<Field>) -> u32
    requires { IfSome field (λ f. f.value < 16 ^ 8) }
{
    field.map_or(0, |f| f.value as u32)
}

// The index behind a field: 0 where there is none.
fn behind(field: Option<Field>) -> usize {
    field.map_or(0, |f| f.next)
}

// The bytes that the digits behind the space at index at spell, laid over the front of out, and the index after their
// digits: no bytes and the line's end where none stand there.
fn bytes_after<'a>(line: &[u8], at: usize, out: &'a mut [u8]) -> (&'a [u8], usize) {
    let Some(place) = value_at(line, at, b" ") else {
        return (&[], line.len());
    };
    let size = hex_bytes(part(line, place.from, place.to), out).unwrap_or(0);
    (part(out, 0, size), place.to)
}

fn print(text: &[u8]) {
    io::write_all(1, text);
}

fn print_bytes(bytes: &[u8]) {
    let mut text = [0u8; 20000];
    let size = put_hex(bytes, 0, &mut text);
    print(part(&text, 0, size));
}

fn print_number(n: u64) {
    io::print_decimal(1, n);
}

// The settings of a line, and the last field of them. A line of another form is run too, with 0 from its fault on.
#[derive(Clone, Copy)]
struct SettingsPart {
    settings: Settings,
    end: Option<Field>,
}

// The line begins with key.
fn settings_part(line: &[u8], key: &[u8]) -> SettingsPart {
    let mps = hex_after(line, 0, key, 8);
    let mrrs = hex_next(line, mps, 8);
    let rcb = hex_next(line, mrrs, 8);
    SettingsPart {
        settings: Settings {
            mps: setting(mps),
            mrrs: setting(mrrs),
            rcb: setting(rcb),
        },
        end: rcb,
    }
}

// What reading gives: the number, and of an accepted packet its record and its payload.
fn run_read(line: &[u8]) {
    let front = settings_part(line, b"r ");
    let settings = front.settings;
    let mut space = [0u8; 10000];
    let (packet, _) = bytes_after(line, behind(front.end), &mut space);
    let mut record = [0u8; RECORD_SIZE];
    let number = tlp_c::tollpebble_read(
        settings.mps,
        settings.mrrs,
        settings.rcb,
        packet,
        &mut record,
    );
    print(b"code=");
    print_number(u64::from(number));
    if let Ok(p) = tlp_read::read(settings, packet) {
        print(b" record=");
        print_bytes(&record);
        print(b" payload=");
        print_bytes(tlp_read::payload(p, packet));
    }
    print(b"\n");
}

fn write_into(settings: Settings, record: &[u8], payload: &[u8], out: &mut [u8]) {
    let mut size: u64 = 0;
    let number = tlp_c::tollpebble_write(
        settings.mps,
        settings.mrrs,
        settings.rcb,
        record,
        payload,
        out,
        &mut size,
    );
    print(b"code=");
    print_number(u64::from(number));
    print(b" size=");
    print_number(size);
    print(b" out=");
    print_bytes(out);
    print(b"\n");
}

// Writes from a record into an output of room bytes, each 0xee before.
// The record's digits end at their space, so its length is passed over.
fn run_write(line: &[u8]) {
    let front = settings_part(line, b"w ");
    let room = hex_next(line, front.end, 4);
    let length = hex_next(line, room, 4);
    let mut record_space = [0u8; 10000];
    let (record, next) = bytes_after(line, behind(length), &mut record_space);
    let mut payload_space = [0u8; 10000];
    let (payload, _) = bytes_after(line, next, &mut payload_space);
    let mut out = [0xeeu8; 10000];
    let used = out.len().min(room.map_or(0, |f| f.value as usize));
    write_into(front.settings, record, payload, &mut out[..used]);
}

fn run_line(line: &[u8]) {
    if byte_at(line, 0) == b'r' {
        run_read(line);
    } else {
        run_write(line);
    }
}

// How many lines were run, and where the first one that has no end yet starts.
#[derive(Clone, Copy)]
struct Ran {
    lines: u64,
    used: usize,
}

// Not by split: of its last part, which has no end yet, it says neither that it is the last nor where it starts.
fn run_lines(text: &[u8]) -> Ran
    ensures { (result.used ≤ length text.now) × (result.lines ≤ result.used) }
{
    let mut lines: u64 = 0;
    let mut used: usize = 0;
    while used < text.len() {
        let end = line_end(text, used);
        if end == text.len() {
            break;
        }
        run_line(&text[used..end]);
        lines += 1;
        used = end + 1;
    }
    Ran { lines, used }
}

// What one turn leaves: the bytes kept and the lines run.
#[derive(Clone, Copy)]
struct Turn {
    kept: usize,
    lines: u64,
}

// None where nothing more was read: what is kept has no whole line.
fn read_and_run(buf: &mut [u8], kept: usize) -> Option<Turn>
    requires { kept ≤ length buf.old }
    ensures { IfSome result (λ t. (t.kept ≤ length buf.old) × (t.lines < 2 ^ 63)) }
{
    let got = io::read_full(0, &mut buf[kept..]);
    if got == 0 {
        return None;
    }
    let n = kept + got;
    let ran = run_lines(&buf[..n]);
    move_to_front(buf, ran.used, n);
    Some(Turn {
        kept: n - ran.used,
        lines: ran.lines,
    })
}

fn main() {
    let mut buf = io::large_buffer();
    let mut kept: usize = 0;
    let mut lines: u64 = 0;
    for _ in 0..4096 {
        let Some(t) = read_and_run(&mut buf, kept) else {
            break;
        };
        kept = t.kept;
        lines = (lines + t.lines) % 4294967296;
    }
    print(b"lines=");
    print_number(lines);
    print(b"\n");
}
