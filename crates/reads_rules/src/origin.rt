// What a table is made from; fixed for its life.
use tlp::settings::Settings;

#[derive(Clone, Copy, Debug, PartialEq, Eq)]
pub struct Origin {
    pub settings: Settings,
    pub requester: u16,
}
