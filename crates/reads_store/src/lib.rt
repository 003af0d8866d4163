// Writing the bytes of a piece into the store.
#![tactic(auto)]

ghost use Rattle.std.specs.Prelude.{◌≡◌, true, ◌++◌, ℕ, ◌+◌, ◌-◌, ◌*◌, ◌%◌, ◌^◌, ◌<◌, ◌≤◌, length, take, drop};
ghost use Rattle.bits.specs.Choice.{pick};
ghost use Rattle.byte_enables.specs.Enables.{enabled};
ghost use Rattle.scans.specs.Merges.{merged};
ghost use Rattle.reads_store.specs.Stores.{stored};

use byte_enables::{Access, enabled_at};
use reads_rules::request::ReadRequest;

// Lays the enabled bytes of a payload, whose first byte is the read's byte k, over the part that is lent, with a test
// for each byte.
fn store_tested(a: Access, k: u64, payload: &[u8], part: &mut [u8])
    requires { k + length payload.now < 2 ^ 64 }
    ensures { part.new ≡ merged (enabled a) k payload.now part.old }
{
    let n = payload.len().min(part.len());
    for i in 0..n {
        if enabled_at(a, k + i as u64) {
            part[i] = payload[i];
        }
    }
}

// The bytes of a read from enabled_from up to enabled_to are all enabled: left out is a first or a last doubleword
// whose enables are not 1111.
fn enabled_from(a: Access) -> u64
    ensures { result < 4 → a.first % 16 ≡ 15 }
{
    if a.first % 16 == 0b1111 { 0 } else { 4 }
}

fn enabled_to(a: Access) -> u64
    ensures { (result ≤ 4 * a.length) × (4 * a.length - 4 < result → a.last % 16 ≡ 15) }
{
    let all = 4 * u64::from(a.length);
    if a.last % 16 == 0b1111 {
        all
    } else {
        all.saturating_sub(4)
    }
}

// How many bytes there are from byte k up to byte end; 0 where end is not beyond k.
fn bytes_up_to(end: u64, k: u64) -> usize
    ensures { result ≡ end - k }
{
    end.saturating_sub(k) as usize
}

// How many of the n bytes from byte k on are known to be enabled, without a test of each.
fn enabled_run(a: Access, k: u64, n: usize) -> usize
    ensures { (result ≤ n) × ((i : ℕ) → i < result → enabled a (k + i) ≡ true) }
{
    if k < enabled_from(a) {
        0
    } else {
        bytes_up_to(enabled_to(a), k).min(n)
    }
}

// What store_tested does, where the first run bytes are all enabled: one copy of these is many times faster than a
// test of each.
fn store_run_and_rest(a: Access, k: u64, run: usize, payload: &[u8], part: &mut [u8])
    requires bounds { (run ≤ length payload.now) × (run ≤ length part.old) × (k + length payload.now < 2 ^ 64) }
    requires run_enabled { (i : ℕ) → i < run → enabled a (k + i) ≡ true }
    ensures { part.new ≡ merged (enabled a) k payload.now part.old }
{
    part[..run].copy_from_slice(&payload[..run]);
    store_tested(a, k + run as u64, &payload[run..], &mut part[run..]);
}

// A block that holds the largest payload: MPS is at most 4,096.
const BLOCK: usize = 4096;

// Copies the first n bytes. They go by way of a block of their own where it holds them: the compiler then knows that
// nothing overlaps, and makes one block copy of the two loops.
fn copy_front(n: usize, src: &[u8], dst: &mut [u8])
    requires { (n ≤ length src.now) × (n ≤ length dst.old) }
    ensures { dst.new ≡ take n src.now ++ drop n dst.old }
{
    if BLOCK < n {
        dst[..n].copy_from_slice(&src[..n]);
        return;
    }
    let mut block = [0u8; BLOCK];
    block[..n].copy_from_slice(&src[..n]);
    dst[..n].copy_from_slice(&block[..n]);
}

// Whether the n bytes from byte k on are all enabled, as the enables of the first and the last doubleword alone show
// it.
fn all_enabled(a: Access, k: u64, n: usize) -> bool
    ensures { result ≡ true → (i : ℕ) → i < n → enabled a (k + i) ≡ true }
{
    a.first % 16 == 0b1111 && a.last % 16 == 0b1111 && n <= bytes_up_to(4 * u64::from(a.length), k)
}

// What store_tested does, by runs: first the h bytes before the run that is all enabled, then that run and what
// follows it. Neither slice is shorter than n.
fn store_runs(a: Access, k: u64, n: usize, payload: &[u8], part: &mut [u8])
    requires { (n ≤ length payload.now) × (n ≤ length part.old) × (k + length payload.now < 2 ^ 64) }
    ensures { part.new ≡ merged (enabled a) k payload.now part.old }
{
    let h = bytes_up_to(enabled_from(a), k).min(n);
    let run = enabled_run(a, k + h as u64, n - h);
    store_tested(a, k, &payload[..h], &mut part[..h]);
    store_run_and_rest(a, k + h as u64, run, &payload[h..], &mut part[h..]);
}

// Lays the enabled bytes of a payload, whose first doubleword is the read's doubleword p, over the part of the store
// that is lent. Where all of them are enabled they are copied at once.
pub fn store_enabled(a: Access, p: u32, payload: &[u8], part: &mut [u8])
    ensures { part.new ≡ merged (enabled a) (4 * p) payload.now part.old }
{
    let k = 4 * u64::from(p);
    let n = payload.len().min(part.len());
    if all_enabled(a, k, n) {
        copy_front(n, payload, part);
    } else {
        store_runs(a, k, n, payload, part);
    }
}

// Writes the enabled bytes of a payload into the store: the part that starts at window start plus 4p is lent. A start
// is any number; beyond the store there is nothing to write.
pub fn store_piece(q: ReadRequest, p: u32, payload: &[u8], store: &mut [u8])
    ensures { store.new ≡ stored q p payload.now store.old }
{
    let skipped = 4 * u64::from(p);
    let room = store.len() as u64;
    if room < q.start || room - q.start < skipped {
        return;
    }
    let from = (q.start + skipped) as usize;
    let to = from + payload.len().min(store.len() - from);
    store_enabled(q.access, p, payload, &mut store[from..to]);
}
