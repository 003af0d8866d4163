// What is looked at in the records of some kinds only: what a kind does not have is 0, what it has is within its
// bounds. Each kind has its own list of what is 0: as a list of places it would be read byte by byte.
ghost use Rattle.std.specs.Prelude.{◌≡◌};
ghost use Rattle.bits.specs.Choice.{pick};
ghost use Rattle.bits.specs.Word.{byte, word};
ghost use Rattle.tlp_record.specs.Places.{route_place, route_value_place, message_bytes_place, length_place, byte_count_place, extended_register_place, register_place, status_place, lower_address_place};
ghost use Rattle.tlp_record_write.specs.Inner.Kinds.{request_zero, config_zero, message_zero, completion_zero, request_over_in, config_over, completion_over, length_kept, not_address, not_message, memory_fits, io_fits, config_fits, message_fits, completion_fits};

use crate::place::{eight, four, two};
use tlp_record::places::{
    ATTRIBUTES, BYTE_COUNT, BYTE_COUNT_MODIFIED, EXTENDED_REGISTER, FIRST_ENABLES, LAST_ENABLES,
    LENGTH, LOWER_ADDRESS, MESSAGE_BYTES, MESSAGE_CODE, RECORD_SIZE, REGISTER, ROUTE, ROUTE_VALUE,
    STATUS,
};
use tlp_writable::outside_of;

// Nothing of a message or a completion, and no register.
fn request_zero(record: &[u8; RECORD_SIZE]) -> bool
    ensures { result ≡ request_zero «record».now }
{
    record[MESSAGE_CODE] == 0
        && eight(record, MESSAGE_BYTES) == 0
        && four(record, BYTE_COUNT) == 0
        && eight(record, EXTENDED_REGISTER) == 0
}

// The same, but for the two bytes of the register.
fn config_zero(record: &[u8; RECORD_SIZE]) -> bool
    ensures { result ≡ config_zero «record».now }
{
    record[MESSAGE_CODE] == 0
        && eight(record, MESSAGE_BYTES) == 0
        && four(record, BYTE_COUNT) == 0
        && eight(record, EXTENDED_REGISTER) % 281474976710656 == 0
}

fn message_zero(record: &[u8; RECORD_SIZE]) -> bool
    ensures { result ≡ message_zero «record».now }
{
    four(record, BYTE_COUNT) == 0
        && eight(record, EXTENDED_REGISTER) == 0
        && record[FIRST_ENABLES] == 0
        && record[LAST_ENABLES] == 0
}

fn completion_zero(record: &[u8; RECORD_SIZE]) -> bool
    ensures { result ≡ completion_zero «record».now }
{
    record[MESSAGE_CODE] == 0
        && eight(record, MESSAGE_BYTES) == 0
        && two(record, EXTENDED_REGISTER) == 0
        && eight(record, EXTENDED_REGISTER) % 16777216 == 0
}

fn request_over(record: &[u8; RECORD_SIZE]) -> bool
    ensures { result ≡ request_over_in «record».now }
{
    outside_of(1024, four(record, LENGTH))
        || 16 <= record[FIRST_ENABLES]
        || 16 <= record[LAST_ENABLES]
}

fn config_over(record: &[u8; RECORD_SIZE]) -> bool
    ensures { result
        ≡ config_over (byte «record».now extended_register_place) (byte «record».now register_place)
        (request_over_in «record».now) }
{
    16 <= record[EXTENDED_REGISTER] || 64 <= record[REGISTER] || request_over(record)
}

fn completion_over(record: &[u8; RECORD_SIZE]) -> bool
    ensures { result
        ≡ completion_over (byte «record».now status_place) (word 4 «record».now byte_count_place)
        (byte «record».now lower_address_place) }
{
    8 <= record[STATUS]
        || outside_of(4096, four(record, BYTE_COUNT))
        || 128 <= record[LOWER_ADDRESS]
}

fn length_kept(has: bool, record: &[u8; RECORD_SIZE]) -> bool
    ensures { result ≡ length_kept has (word 4 «record».now length_place) }
{
    let n = four(record, LENGTH);
    if has { !outside_of(1024, n) } else { n == 0 }
}

// A route by address; that of I/O has 32 bits.
fn not_address(narrow: bool, record: &[u8; RECORD_SIZE]) -> bool
    ensures { result
        ≡ not_address (pick narrow 32 64) (byte «record».now route_place)
        (word 8 «record».now route_value_place) }
{
    let a = eight(record, ROUTE_VALUE);
    record[ROUTE] != 0 || narrow && 4294967296 <= a || a % 4 != 0
}

fn not_message(record: &[u8; RECORD_SIZE]) -> bool
    ensures { result
        ≡ not_message (byte «record».now route_place) (word 8 «record».now route_value_place)
        (word 8 «record».now message_bytes_place) }
{
    let value = eight(record, ROUTE_VALUE);
    let body = eight(record, MESSAGE_BYTES);
    match record[ROUTE] {
        0 => value != body,
        1 => value % 65536 != body / 281474976710656 % 65536,
        _ => false,
    }
}

#[tactic(auto, unfolding(crate::specs::Inner::Kinds::memory_fits))]
pub(crate) fn memory_fits(record: &[u8; RECORD_SIZE]) -> bool
    ensures { result ≡ memory_fits «record».now }
{
    request_zero(record) && !request_over(record) && !not_address(false, record)
}

#[tactic(auto, unfolding(crate::specs::Inner::Kinds::io_fits))]
pub(crate) fn io_fits(record: &[u8; RECORD_SIZE]) -> bool
    ensures { result ≡ io_fits «record».now }
{
    request_zero(record)
        && !request_over(record)
        && record[ATTRIBUTES] / 4 % 2 == 0
        && !not_address(true, record)
}

#[tactic(auto, unfolding(crate::specs::Inner::Kinds::config_fits))]
pub(crate) fn config_fits(record: &[u8; RECORD_SIZE]) -> bool
    ensures { result ≡ config_fits «record».now }
{
    config_zero(record)
        && !config_over(record)
        && record[ATTRIBUTES] / 4 % 2 == 0
        && record[ROUTE] == 1
}

#[tactic(auto, unfolding(crate::specs::Inner::Kinds::message_fits))]
pub(crate) fn message_fits(has_length: bool, record: &[u8; RECORD_SIZE]) -> bool
    ensures { result ≡ message_fits has_length «record».now }
{
    length_kept(has_length, record) && message_zero(record) && !not_message(record)
}

#[inline(always)]
#[tactic(auto, unfolding(crate::specs::Inner::Kinds::completion_fits))]
pub(crate) fn completion_fits(has_length: bool, record: &[u8; RECORD_SIZE]) -> bool
    ensures { result ≡ completion_fits has_length «record».now }
{
    length_kept(has_length, record)
        && completion_zero(record)
        && record[BYTE_COUNT_MODIFIED] <= 1
        && two(record, FIRST_ENABLES) == 0
        && !completion_over(record)
        && record[ROUTE] == 1
}
