// Calls of a table, each with its answer printed. Each answers the table from here on.
ghost use Rattle.std.specs.Prelude.{◌≡◌, length, replicate};
ghost use Rattle.reads.specs.OpenCall.{open_call, open_out};
ghost use Rattle.reads.specs.TakeCall.{take_call, take_store};
ghost use Rattle.reads.specs.OtherCalls.{make_call, withdraw_call};

use crate::print::{print_new, print_open, print_take, print_withdraw};
use reads::table::Table;
use reads_rules::origin::Origin;
use reads_rules::request::ReadRequest;

// A new table, and the store zeroed.
pub fn make_new(o: Origin, store: &mut [u8]) -> Table
    ensures value { result ≡ (make_call o).table }
    ensures store_after { store.new ≡ replicate (length store.old) 0 }
{
    store.fill(0);
    let made = Table::make(o.settings, o.requester);
    print_new(made.answer);
    made.table
}

// Opens a read. The output is printed whole, also on a refusal.
pub fn open_into(q: ReadRequest, tag: u32, t: Table, store: &[u8], out: &mut [u8]) -> Table
    ensures value { result ≡ (open_call t q tag (length store.now) (length out.old)).table }
    ensures out_after { out.new ≡ open_out t q tag (length store.now) out.old }
{
    let opening = t.open(q, tag, store, out);
    print_open(opening.answer, out);
    opening.table
}

// Takes a packet.
pub fn take_packet(packet: &[u8], t: Table, store: &mut [u8]) -> Table
    ensures value { result ≡ (take_call t packet.now (length store.old)).table }
    ensures store_after { store.new ≡ take_store t packet.now store.old }
{
    let taking = t.take(packet, store);
    print_take(taking.answer);
    taking.table
}

// Withdraws a read.
pub fn withdraw_tag(tag: u32, t: Table) -> Table
    ensures { result ≡ (withdraw_call t tag).table }
{
    let withdrawal = t.withdraw(tag);
    print_withdraw(withdrawal.answer);
    withdrawal.table
}
