// The cores of the table's calls for C, to be timed beside a plain C table. All is the caller's memory: what the
// table is made from (MPS, MRRS, RCB, requester ID), its set and its words, and a request in the form of a tag's
// words.
#![tactic(auto)]

ghost use Rattle.std.specs.Prelude.{◌≡◌, length};
ghost use Rattle.reads.specs.Answers.{open_number, withdraw_number};
ghost use Rattle.reads.specs.OpenCall.{open_call, open_out};
ghost use Rattle.reads.specs.TakeCall.{take_call, take_store};
ghost use Rattle.reads.specs.OtherCalls.{withdraw_call};
ghost use Rattle.bench_lent.specs.Lent.{origin_in, table_in, request_in, done_number};

use reads::open::open_lent;
use reads::table::withdraw_lent;
use reads::take::take_lent;
use reads_answers::TakeAnswer;
use reads_rules::origin::Origin;
use reads_words::tag_set::TagSet;
use reads_words::words::{Words, read_of};
use tlp::refusal::number_in;
use tlp::settings::Settings;

// What a table is made from.
fn origin_in(from: &[u32; 4]) -> Origin
    ensures { result ≡ origin_in from.now }
{
    Origin {
        settings: Settings {
            mps: from[0],
            mrrs: from[1],
            rcb: from[2],
        },
        requester: (from[3] % 65536) as u16,
    }
}

// A turn's take answers Done; another answer without a number is 255.
fn done_number(a: TakeAnswer) -> u32
    ensures { result ≡ done_number a }
{
    match a {
        TakeAnswer::Done => 0,
        TakeAnswer::More | TakeAnswer::Failed(_) | TakeAnswer::Poisoned => 255,
        TakeAnswer::Unread(refusal) | TakeAnswer::Refused(refusal) => refusal.number(),
    }
}

// Opens a read, for a host that times it.
#[unsafe(no_mangle)]
pub extern "C" fn bench_open(
    from: &[u32; 4],
    opened: &mut TagSet,
    words: &mut Words,
    request: &[u64; 4],
    tag: u32,
    store: &[u8],
    out: &mut [u8],
) -> u32
    ensures value { result ≡ open_number (open_call (table_in from.now opened.old words.old)
        (request_in request.now) tag (length store.now) (length out.old)).answer }
    ensures words_after { table_in from.now opened.new words.new
        ≡ (open_call (table_in from.now opened.old words.old)
        (request_in request.now) tag (length store.now) (length out.old)).table }
    ensures out_after { out.new ≡ open_out (table_in from.now opened.old words.old)
        (request_in request.now) tag (length store.now) out.old }
{
    let r = read_of(request[0], request[1], request[2], request[3]);
    let q = r.request;
    let o = origin_in(from);
    number_in(open_lent(o, opened, words, q, tag, store, out))
}

// Takes a packet, likewise.
#[unsafe(no_mangle)]
pub extern "C" fn bench_take(
    from: &[u32; 4],
    opened: &mut TagSet,
    words: &mut Words,
    bytes: &[u8],
    store: &mut [u8],
) -> u32
    ensures value { result ≡ done_number (take_call (table_in from.now opened.old words.old)
        bytes.now (length store.old)).answer }
    ensures words_after { table_in from.now opened.new words.new
        ≡ (take_call (table_in from.now opened.old words.old)
        bytes.now (length store.old)).table }
    ensures store_after { store.new ≡ take_store (table_in from.now opened.old words.old)
        bytes.now store.old }
{
    let o = origin_in(from);
    done_number(take_lent(o, opened, words, bytes, store))
}

// Withdraws a read, likewise.
#[unsafe(no_mangle)]
pub extern "C" fn bench_withdraw(
    from: &[u32; 4],
    opened: &mut TagSet,
    words: &mut Words,
    tag: u32,
) -> u32
    ensures value { result
        ≡ withdraw_number (withdraw_call (table_in from.now opened.old words.old) tag).answer }
    ensures words_after { table_in from.now opened.new words.new
        ≡ (withdraw_call (table_in from.now opened.old words.old) tag).table }
{
    let o = origin_in(from);
    number_in(withdraw_lent(o, opened, words, tag))
}
