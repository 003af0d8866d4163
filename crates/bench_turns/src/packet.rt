// The completion that takes the read of a turn whole.
use crate::PACKET;
use crate::work::Work;

// Byte k of its payload.
fn payload_byte(k: u32) -> u8 {
    ((k % 256 * 7 + 1) % 256) as u8
}

// Lays it over out: requester ID 0100, completer ID 0200, Lower Address 0; Length and Byte Count are the size's.
pub(crate) fn put_packet(w: Work, out: &mut [u8; PACKET]) {
    let dw = w.size / 4;
    out[0] = 0x4a;
    out[2] = (dw / 256 % 4) as u8;
    out[3] = (dw % 256) as u8;
    out[4] = 2;
    out[6] = (w.size / 256 % 16) as u8;
    out[7] = (w.size % 256) as u8;
    out[8] = 1;
    out[10] = (w.tag % 256) as u8;
    for k in 0..w.size {
        out[12 + k as usize] = payload_byte(k);
    }
}
