// The writer's first place for 6: what a packet must not hold.
#![tactic(auto)]

ghost use Rattle.std.specs.Prelude.{◌≡◌};
ghost use Rattle.bits.specs.Choice.{pick};
ghost use Rattle.tlp.specs.Rows.{first};
ghost use Rattle.tlp.specs.Refusals.{checked};
ghost use Rattle.tlp_writable.specs.Given.{outside, length_bad, common_bad, request_bad, config_bad, completion_bad, own_bad, reserved_given};
ghost use Rattle.tlp_writable.specs.Given.{address_route_bad, id_route_bad, message_route_bad, route_bad, given_rows};

use tlp::packet::{CompletionHeader, ConfigRequest, Kind, Packet, Request, Route, type_of};
use tlp::packet_type::{family_of, is_io_or_config};
use tlp::refusal::Refusal;

// Whether a number is outside 1..most.
pub fn outside_of(most: u32, n: u32) -> bool
    ensures { result ≡ outside most n }
{
    !(1..=most).contains(&n)
}

// A length in doublewords.
fn length_bad(n: u32) -> bool
    ensures { result ≡ length_bad n }
{
    outside_of(1024, n)
}

// What packets of every kind hold.
#[tactic(auto, unfolding(crate::specs::Given::common_bad))]
fn common_bad(p: Packet) -> bool
    ensures { result ≡ common_bad p }
{
    8 <= p.traffic_class || 8 <= p.attributes || !p.has_digest && p.digest != 0
}

#[tactic(auto, unfolding(crate::specs::Given::request_bad))]
fn request_bad(q: Request) -> bool
    ensures { result ≡ request_bad q }
{
    length_bad(q.length) || 16 <= q.first || 16 <= q.last
}

#[tactic(auto, unfolding(crate::specs::Given::config_bad))]
fn config_bad(q: ConfigRequest) -> bool
    ensures { result ≡ config_bad q }
{
    16 <= q.extended_register || 64 <= q.register || request_bad(q.request)
}

#[tactic(auto, unfolding(crate::specs::Given::completion_bad))]
fn completion_bad(c: CompletionHeader) -> bool
    ensures { result ≡ completion_bad c }
{
    8 <= c.status || outside_of(4096, c.byte_count) || 128 <= c.lower_address
}

// What the packet's kind holds. Nothing that a message holds can exceed its field.
#[tactic(auto, unfolding(crate::specs::Given::own_bad, crate::specs::Given::message_bad))]
fn own_bad(k: Kind) -> bool
    ensures { result ≡ own_bad k }
{
    match k {
        Kind::MemoryRead(q) | Kind::MemoryWrite(q) | Kind::IoRead(q) | Kind::IoWrite(q) => {
            request_bad(q)
        }
        Kind::ConfigRead0(q)
        | Kind::ConfigWrite0(q)
        | Kind::ConfigRead1(q)
        | Kind::ConfigWrite1(q) => config_bad(q),
        Kind::Message(_) => false,
        Kind::MessageData { length, .. } => length_bad(length),
        Kind::Completion(c) => completion_bad(c),
        Kind::CompletionData { completion, length } => {
            length_bad(length) || completion_bad(completion)
        }
    }
}

#[tactic(auto, unfolding(crate::specs::Given::reserved_given))]
fn reserved_given(p: Packet) -> bool
    ensures { result ≡ reserved_given p }
{
    is_io_or_config(family_of(type_of(p))) && p.attributes / 4 % 2 != 0
}

// A memory or I/O request goes by an address, a multiple of 4; that of I/O has 32 bits.
#[tactic(auto, unfolding(crate::specs::Given::address_route_bad))]
fn address_route_bad(narrow: bool, r: Route) -> bool
    ensures { result ≡ address_route_bad (pick narrow 32 64) r }
{
    match r {
        Route::Address(a) => narrow && 4294967296 <= a || a % 4 != 0,
        Route::Id(_) | Route::Implicit(_) => true,
    }
}

// No ID exceeds its field.
#[tactic(auto, unfolding(crate::specs::Given::id_route_bad))]
fn id_route_bad(r: Route) -> bool
    ensures { result ≡ id_route_bad r }
{
    !matches!(r, Route::Id(_))
}

#[tactic(auto, unfolding(crate::specs::Given::message_route_bad))]
fn message_route_bad(body: u64, r: Route) -> bool
    ensures { result ≡ message_route_bad body r }
{
    match r {
        Route::Address(a) => a != body,
        Route::Id(i) => u64::from(i) != body / 281474976710656 % 65536,
        Route::Implicit(_) => false,
    }
}

#[tactic(auto, unfolding(crate::specs::Given::route_bad))]
fn route_bad(r: Route, k: Kind) -> bool
    ensures { result ≡ route_bad r k }
{
    match k {
        Kind::MemoryRead(_) | Kind::MemoryWrite(_) => address_route_bad(false, r),
        Kind::IoRead(_) | Kind::IoWrite(_) => address_route_bad(true, r),
        Kind::ConfigRead0(_)
        | Kind::ConfigWrite0(_)
        | Kind::ConfigRead1(_)
        | Kind::ConfigWrite1(_)
        | Kind::Completion(_)
        | Kind::CompletionData { .. } => id_route_bad(r),
        Kind::Message(m) | Kind::MessageData { message: m, .. } => message_route_bad(m.body, r),
    }
}

// Refused where the packet holds what it must not.
#[tactic(auto, unfolding(tlp::specs::Rows::first, tlp::specs::Refusals::refusal))]
pub fn given_fault(p: Packet) -> Result<(), Refusal>
    ensures { result ≡ checked (first (given_rows p)) }
{
    if common_bad(p) || own_bad(p.kind) || reserved_given(p) || route_bad(p.route, p.kind) {
        return Err(Refusal::BadField);
    }
    Ok(())
}
