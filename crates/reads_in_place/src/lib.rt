// One table, lent and changed in place: thin calls over the by-value core.
#![tactic(auto)]

ghost use Rattle.reads_in_place.specs.LentTable.{OpenLeaves, TakeLeaves, WithdrawLeaves, OwedLeaves};

use reads::table::Table;
use reads_answers::TakeAnswer;
use reads_rules::request::ReadRequest;
use tlp::refusal::Refusal;

// Opens a read in the table: table and answer are those of open_call, the output is open_out's.
pub fn open(
    t: &mut Table,
    q: ReadRequest,
    tag: u32,
    store: &[u8],
    out: &mut [u8],
) -> Result<usize, Refusal>
    ensures { OpenLeaves t.old q tag store.now out.old result
        t.new out.new }
{
    let n = t.open(q, tag, store, out);
    *t = n.table;
    n.answer
}

// Takes a packet: table and answer are those of take_call, the store is take_store's.
pub fn take(t: &mut Table, bytes: &[u8], store: &mut [u8]) -> TakeAnswer
    ensures { TakeLeaves t.old bytes.now store.old result
        t.new store.new }
{
    let n = t.take(bytes, store);
    *t = n.table;
    n.answer
}

// Withdraws a read: table and answer are those of withdraw_call.
pub fn withdraw(t: &mut Table, tag: u32) -> Result<(), Refusal>
    ensures { WithdrawLeaves t.old tag result t.new }
{
    let n = t.withdraw(tag);
    *t = n.table;
    n.answer
}

// The doublewords still owed: the answer is owed_call's.
pub fn owed(t: &Table) -> Result<u64, Refusal>
    ensures { OwedLeaves t.now result }
{
    t.owed()
}
