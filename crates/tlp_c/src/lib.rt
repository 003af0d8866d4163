// The C face: reader and writer over numbers and byte slices. docs/RECORD.md lists the record's layout.
#![tactic(auto)]

ghost use Rattle.std.specs.Prelude.{◌≡◌, length};
ghost use Rattle.tlp_read.specs.Read.{read_packet};
ghost use Rattle.tlp_c.specs.Calls.{settings_of, write_number, written_size};
ghost use Rattle.tlp_record_read.specs.RecordRead.{read_number, read_record};
ghost use Rattle.tlp_record_write.specs.RecordWrite.{record_out};

use tlp::refusal::number_in;
use tlp::settings::Settings;
use tlp_record_read::read_record;
use tlp_record_write::write_record;

// Reads a packet. Answers 0 with the packet's record over the front of record, or the number of the refusal with record
// as it was.
pub fn tollpebble_read(mps: u32, mrrs: u32, rcb: u32, packet: &[u8], record: &mut [u8]) -> u32
    ensures value { result
        ≡ read_number (read_packet (settings_of mps mrrs rcb) packet.now) (length «record».old) }
    ensures record_after { «record».new
        ≡ read_record (read_packet (settings_of mps mrrs rcb) packet.now) «record».old }
{
    let settings = Settings { mps, mrrs, rcb };
    number_in(read_record(settings, packet, record))
}

// Writes the packet that record describes, with its payload, over the front of out. Answers 0 with the packet's size in
// size, or the number of the refusal with out and size as they were.
#[tactic(auto, unfolding(crate::specs::Calls::write_number, crate::specs::Calls::written_size))]
pub fn tollpebble_write(
    mps: u32,
    mrrs: u32,
    rcb: u32,
    record: &[u8],
    payload: &[u8],
    out: &mut [u8],
    size: &mut u64,
) -> u32
    ensures value { result
        ≡ write_number (settings_of mps mrrs rcb) «record».now (length payload.now)
        (length out.old) }
    ensures out_after { out.new
        ≡ record_out (settings_of mps mrrs rcb) «record».now payload.now out.old }
    ensures size_after { size.new
        ≡ written_size (settings_of mps mrrs rcb) «record».now (length payload.now)
        (length out.old) size.old }
{
    let settings = Settings { mps, mrrs, rcb };
    let answer = write_record(settings, record, payload, out);
    if let Ok(n) = answer {
        *size = n as u64;
    }
    number_in(answer)
}
