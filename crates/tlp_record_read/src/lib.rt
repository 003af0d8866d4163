// Reading a packet straight into a record's bytes: no packet is made.
#![tactic(auto)]

mod lay;

ghost use Rattle.std.specs.Prelude.{◌≡◌, length};
ghost use Rattle.tlp_read.specs.Read.{read_packet};
ghost use Rattle.tlp_record_read.specs.RecordRead.{read_answer, read_record};

use bits::word::byte_at;
use tlp::packet_type::family_by_type;
use tlp::refusal::Refusal;
use tlp::settings::Settings;
use tlp_read::check;
use tlp_record::places::RECORD_SIZE;

// The packet's record over the front of what is lent for it, or the first refusal that is given, with the record as it
// was.
pub fn read_record(settings: Settings, packet: &[u8], record: &mut [u8]) -> Result<(), Refusal>
    ensures value { result ≡ read_answer (read_packet settings packet.now) (length «record».old) }
    ensures record_after { «record».new
        ≡ read_record (read_packet settings packet.now) «record».old }
{
    check(settings, packet)?;
    let Some(front) = record.first_chunk_mut::<RECORD_SIZE>() else {
        return Err(Refusal::OutputTooShort);
    };
    let accepted = lay::Accepted { packet };
    accepted.put_record(family_by_type(byte_at(packet, 0)), front);
    Ok(())
}
