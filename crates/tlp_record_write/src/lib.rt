// Writing the packet that a record describes, straight from the record's bytes: no packet is made.
#![tactic(auto)]

mod kind_head;
mod kinds;
mod place;
mod shared;

ghost use Rattle.std.specs.Prelude.{◌≡◌, length};
ghost use Rattle.tlp_record_write.specs.RecordWrite.{record_answer, record_out};
ghost use Rattle.tlp_record_write.specs.Inner.KindHead.{RecordHead};

use crate::kind_head::{kind_head_in, whole_head};
use crate::shared::shared_fits;
use tlp::refusal::Refusal;
use tlp::settings::{Settings, settings_listed};
use tlp_record::places::RECORD_SIZE;
use tlp_write::head::Head;
use tlp_write::write_head;

// The head of the packet that a record describes; None where it can't be written.
fn head_in(record: &[u8]) -> Option<Head>
    ensures { RecordHead result «record».now }
{
    let record = record.as_array::<RECORD_SIZE>()?;
    if !shared_fits(record) {
        return None;
    }
    let kind = kind_head_in(record)?;
    Some(whole_head(kind, record))
}

// The packet over the front of the output, or the first refusal that is given, with the output as it was. The size is
// answered.
pub fn write_record(
    settings: Settings,
    record: &[u8],
    payload: &[u8],
    out: &mut [u8],
) -> Result<usize, Refusal>
    ensures value { result
        ≡ record_answer settings «record».now (length payload.now) (length out.old) }
    ensures out_after { out.new
        ≡ record_out settings «record».now payload.now out.old }
{
    if !settings_listed(settings) {
        return Err(Refusal::BadSetting);
    }
    let Some(head) = head_in(record) else {
        return Err(Refusal::BadField);
    };
    write_head(settings.mps, head, payload, out)
}
