// The functions for C hosts under their exported names, as a static library: each answers as tlp_c's function of its
// name. host/include/tollpebble.h declares them.
#![tactic(auto)]

ghost use Rattle.std.specs.Prelude.{◌≡◌, length};
ghost use Rattle.tlp_read.specs.Read.{read_packet};
ghost use Rattle.tlp_c.specs.Calls.{settings_of, write_number, written_size};
ghost use Rattle.tlp_record_read.specs.RecordRead.{read_number, read_record};
ghost use Rattle.tlp_record_write.specs.RecordWrite.{record_out};

#[unsafe(no_mangle)]
pub extern "C" fn tollpebble_read(
    mps: u32,
    mrrs: u32,
    rcb: u32,
    packet: &[u8],
    record: &mut [u8],
) -> u32
    ensures value { result
        ≡ read_number (read_packet (settings_of mps mrrs rcb) packet.now) (length «record».old) }
    ensures record_after { «record».new
        ≡ read_record (read_packet (settings_of mps mrrs rcb) packet.now) «record».old }
{
    tlp_c::tollpebble_read(mps, mrrs, rcb, packet, record)
}

#[unsafe(no_mangle)]
pub extern "C" fn tollpebble_write(
    mps: u32,
    mrrs: u32,
    rcb: u32,
    record: &[u8],
    payload: &[u8],
    out: &mut [u8],
    size: &mut u64,
) -> u32
    ensures value { result
        ≡ write_number (settings_of mps mrrs rcb) «record».now (length payload.now)
        (length out.old) }
    ensures out_after { out.new
        ≡ record_out (settings_of mps mrrs rcb) «record».now payload.now out.old }
    ensures size_after { size.new
        ≡ written_size (settings_of mps mrrs rcb) «record».now (length payload.now)
        (length out.old) size.old }
{
    tlp_c::tollpebble_write(mps, mrrs, rcb, record, payload, out, size)
}
