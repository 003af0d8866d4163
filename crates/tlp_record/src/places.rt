// Where the fields of a record start: record.txt lists them, specs/Places.antt has the same numbers.
pub const RECORD_SIZE: usize = 48;

pub const KIND: usize = 0;

pub const TRAFFIC_CLASS: usize = 1;

pub const ATTRIBUTES: usize = 2;

pub const POISONED: usize = 3;

pub const DIGEST_PRESENT: usize = 4;

pub const ROUTE: usize = 5;

pub const TAG: usize = 6;

pub const MESSAGE_CODE: usize = 7;

pub const ROUTE_VALUE: usize = 8;

// The ID of a route by ID: the low bytes of the route's value.
pub const ROUTE_ID: usize = 14;

pub const MESSAGE_BYTES: usize = 16;

pub const DIGEST: usize = 24;

pub const LENGTH: usize = 28;

pub const BYTE_COUNT: usize = 32;

pub const SOURCE_ID: usize = 36;

pub const FIRST_ENABLES: usize = 38;

pub const LAST_ENABLES: usize = 39;

pub const EXTENDED_REGISTER: usize = 40;

pub const REGISTER: usize = 41;

pub const STATUS: usize = 42;

pub const BYTE_COUNT_MODIFIED: usize = 43;

pub const LOWER_ADDRESS: usize = 44;
