// The kind table: packet types by byte 0, their header sizes, and whether data follows.
ghost use Rattle.std.specs.Prelude.{◌≡◌, ◌%◌, false, not, eqb};
ghost use Rattle.bits.specs.Field.{bit};
ghost use Rattle.tlp.specs.PacketTypes.{type_at, header_dw, has_data, first_byte, family_of, is_unlisted, is_io_or_config};
ghost use Rattle.tlp.specs.Inner.PacketTypes.{family_by_type};

// The rows of the kind table.
#[derive(Clone, Copy, Debug, PartialEq, Eq)]
pub enum PacketType {
    MRd32,
    MRd64,
    MWr32,
    MWr64,
    IORd,
    IOWr,
    CfgRd0,
    CfgWr0,
    CfgRd1,
    CfgWr1,
    Msg,
    MsgD,
    Cpl,
    CplD,
    // Byte 0 is not in the table. A row of its own, no Option: the tables here and in specs/ are total over it.
    Unlisted,
}

// Types that fall under the same rules.
#[derive(Clone, Copy, Debug, PartialEq, Eq)]
pub enum Family {
    Memory,
    Io,
    Config,
    Message,
    Completion,
    // As PacketType::Unlisted: the tables are total over it.
    Unlisted,
}

// The type that byte 0 says. No From: it would be this match, its contract in a ghost member.
#[tactic(auto, unfolding(crate::specs::PacketTypes::type_at))]
pub fn type_at(b0: u8) -> PacketType
    ensures { result ≡ type_at b0 }
{
    match b0 {
        0x00 => PacketType::MRd32,
        0x20 => PacketType::MRd64,
        0x40 => PacketType::MWr32,
        0x60 => PacketType::MWr64,
        0x02 => PacketType::IORd,
        0x42 => PacketType::IOWr,
        0x04 => PacketType::CfgRd0,
        0x44 => PacketType::CfgWr0,
        0x05 => PacketType::CfgRd1,
        0x45 => PacketType::CfgWr1,
        0x30..=0x37 => PacketType::Msg,
        0x70..=0x77 => PacketType::MsgD,
        0x0A => PacketType::Cpl,
        0x4A => PacketType::CplD,
        _ => PacketType::Unlisted,
    }
}

// Header size in doublewords.
pub fn header_dw(t: PacketType) -> usize
    ensures { result ≡ header_dw t }
{
    match t {
        PacketType::MRd32
        | PacketType::MWr32
        | PacketType::IORd
        | PacketType::IOWr
        | PacketType::CfgRd0
        | PacketType::CfgWr0
        | PacketType::CfgRd1
        | PacketType::CfgWr1
        | PacketType::Cpl
        | PacketType::CplD => 3,
        PacketType::MRd64 | PacketType::MWr64 | PacketType::Msg | PacketType::MsgD => 4,
        PacketType::Unlisted => 0,
    }
}

// Whether data follows the header.
pub fn has_data(t: PacketType) -> bool
    ensures { result ≡ has_data t }
{
    matches!(
        t,
        PacketType::MWr32
            | PacketType::MWr64
            | PacketType::IOWr
            | PacketType::CfgWr0
            | PacketType::CfgWr1
            | PacketType::MsgD
            | PacketType::CplD
    )
}

// Byte 0; a message adds its routing. No From, as type_at.
pub fn first_byte(t: PacketType) -> u8
    ensures { result ≡ first_byte t }
{
    match t {
        PacketType::MRd32 => 0x00,
        PacketType::MRd64 => 0x20,
        PacketType::MWr32 => 0x40,
        PacketType::MWr64 => 0x60,
        PacketType::IORd => 0x02,
        PacketType::IOWr => 0x42,
        PacketType::CfgRd0 => 0x04,
        PacketType::CfgWr0 => 0x44,
        PacketType::CfgRd1 => 0x05,
        PacketType::CfgWr1 => 0x45,
        PacketType::Msg => 0x30,
        PacketType::MsgD => 0x70,
        PacketType::Cpl => 0x0A,
        PacketType::CplD => 0x4A,
        PacketType::Unlisted => 0x00,
    }
}

// The rules that a type falls under.
pub fn family_of(t: PacketType) -> Family
    ensures { result ≡ family_of t }
{
    match t {
        PacketType::MRd32 | PacketType::MRd64 | PacketType::MWr32 | PacketType::MWr64 => {
            Family::Memory
        }
        PacketType::IORd | PacketType::IOWr => Family::Io,
        PacketType::CfgRd0 | PacketType::CfgWr0 | PacketType::CfgRd1 | PacketType::CfgWr1 => {
            Family::Config
        }
        PacketType::Msg | PacketType::MsgD => Family::Message,
        PacketType::Cpl | PacketType::CplD => Family::Completion,
        PacketType::Unlisted => Family::Unlisted,
    }
}

// A bit for each value of bits 5:0 in the table: Fmt bit 1, data or none, does not matter to it.
const LISTED: u64 = 0x00FF_0001_0000_0435;

// Whether byte 0 is in the table, with no branch by type.
pub fn is_listed(b0: u8) -> bool
    ensures { result ≡ not (is_unlisted (family_of (type_at b0))) }
{
    b0 < 128 && (LISTED >> (b0 % 64)) % 2 == 1
}

// The family by Type 4:0 alone, for a type in the table.
pub fn family_by_type(b0: u8) -> Family
    ensures value { result ≡ family_by_type (b0 % 32) }
    ensures where_listed { is_unlisted (family_of (type_at b0)) ≡ false → result ≡ family_of (type_at b0) }
{
    match b0 % 32 {
        0 => Family::Memory,
        2 => Family::Io,
        4 | 5 => Family::Config,
        10 => Family::Completion,
        _ => Family::Message,
    }
}

// Fmt bit 0: a header of four doublewords, for a type in the table.
pub fn is_wide(b0: u8) -> bool
    ensures value { result ≡ bit b0 5 }
    ensures where_listed { is_unlisted (family_of (type_at b0)) ≡ false → result ≡ eqb (header_dw (type_at b0)) 4 }
{
    b0 / 32 % 2 == 1
}

// Fmt bit 1: data follows, for a type in the table.
pub fn data_follows(b0: u8) -> bool
    ensures value { result ≡ bit b0 6 }
    ensures where_listed { is_unlisted (family_of (type_at b0)) ≡ false → result ≡ has_data (type_at b0) }
{
    b0 / 64 % 2 == 1
}

// Byte 0 is not in the table.
pub fn is_unlisted(f: Family) -> bool
    ensures { result ≡ is_unlisted f }
{
    f == Family::Unlisted
}

// I/O and configuration requests.
pub fn is_io_or_config(f: Family) -> bool
    ensures { result ≡ is_io_or_config f }
{
    matches!(f, Family::Io | Family::Config)
}
