// What a script works on: a table, and a store of which a part is lent.
use reads::table::Table;
use reads_rules::window::STORE_LIMIT;
use tlp::settings::Settings;

// The most bytes of a store, and as many as are lent at first.
pub(crate) const STORE_MOST: usize = 70000;

pub(crate) const STORE_FIRST: usize = STORE_LIMIT as usize;

// Room for the longest store.
pub(crate) type Space = [u8; STORE_MOST];

// The table before the first `new`.
pub(crate) fn first_table() -> Table {
    let settings = Settings {
        mps: 128,
        mrrs: 128,
        rcb: 64,
    };
    Table::make(settings, 0).table
}
