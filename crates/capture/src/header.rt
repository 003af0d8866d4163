// Line one of a capture.
ghost use Rattle.std.specs.Prelude.{◌≡◌};
ghost use Rattle.capture.specs.Headers.{header_line};

use text::fields::{decimal_after, hex_after};
use text::number::MOST_32;
use tlp::settings::{Settings, settings_listed};

// The settings, and the requester ID of the box.
#[derive(Clone, Copy, Debug, PartialEq, Eq)]
pub struct Header {
    pub settings: Settings,
    pub requester: u16,
}

// Reads line one, the header that its text spells.
#[tactic(auto, unfolding(crate::specs::Headers::header_line))]
pub fn header_line(text: &[u8]) -> Option<Header>
    ensures { result ≡ header_line text.now }
{
    let mps = decimal_after(text, 0, b"mps=", MOST_32)?;
    let mrrs = decimal_after(text, mps.next, b" mrrs=", MOST_32)?;
    let rcb = decimal_after(text, mrrs.next, b" rcb=", MOST_32)?;
    let requester = hex_after(text, rcb.next, b" req=", 4)?;
    let settings = Settings {
        mps: mps.value as u32,
        mrrs: mrrs.value as u32,
        rcb: rcb.value as u32,
    };
    if requester.next != text.len() || !settings_listed(settings) {
        return None;
    }
    Some(Header {
        settings,
        requester: requester.value as u16,
    })
}
