// What an L2 entry gives: its way, and what stands at a byte of its cluster.
#![tactic(auto)]

ghost use Rattle.std.specs.Prelude.{◌≡◌, ◌+◌, ◌*◌, ◌^◌, ◌<◌, ◌≤◌, length, if◌then◌else◌};
ghost use Rattle.endian.specs.Big.{be64};
ghost use Rattle.qcow2_spec.specs.Causes.{number};
ghost use Rattle.qcow2_spec.specs.Entries.{compressed};
ghost use Rattle.qcow2_spec.specs.Guest.{entry_way, entry_gives};
ghost use Rattle.qcow2_found.specs.Entry.{entry_found};
ghost use Rattle.qcow2_spec.specs.Header.{most_bits, most_length};

use qcow2_spec::refusal::{Cause, Refusal};
use qcow2_spec::{Found, Way};

// The way that ends at entry i of an L2 table, which stands at an index of an image of n bytes.
#[tactic(auto, unfolding(qcow2_spec::specs::Guest::entry_way))]
pub fn way_in(
    table: &[u8],
    i: usize,
    at: usize,
    version: u32,
    n: u64,
    bits: u32,
) -> Result<Way, Refusal>
    requires { (bits ≤ most_bits) × ((8 * i + 8 ≤ length table.now) × (at + length table.now ≤ most_length)) }
    ensures { result ≡ entry_way version (2 ^ bits) n (at + 8 * i) (be64 table.now (8 * i)) }
{
    let e = endian::load64(table, 8 * i);
    if qcow2_entry::is_compressed(e) {
        return Err(Cause::Compressed.into());
    }
    if qcow2_entry::good_l2(e, version, n, bits) {
        return Ok(Way::Slot(at + 8 * i, e));
    }
    Err(Cause::Entry.into())
}

// What an entry gives for byte o of its cluster.
#[tactic(auto, unfolding(qcow2_spec::specs::Guest::entry_gives))]
pub fn gives(e: u64, o: u64) -> Found
    requires { o < 2147483648 }
    ensures { result ≡ entry_gives e o }
{
    if qcow2_entry::has_mark(e) {
        return Found::Zeros;
    }
    let p = qcow2_entry::place_of(e);
    if p == 0 {
        return Found::Absent;
    }
    Found::Host(p + o)
}

// Why an entry is refused, by comparisons alone.
#[tactic(auto, unfolding(qcow2_spec::specs::Entries::compressed))]
fn refusal(e: u64) -> Cause
    ensures { number result ≡ (if compressed e then 13 else 12) }
{
    if e >= 13835058055282163712 {
        return Cause::Compressed;
    }
    if e >= 9223372036854775808 {
        return Cause::Entry;
    }
    if e >= 4611686018427387904 {
        return Cause::Compressed;
    }
    Cause::Entry
}

// What an L2 entry of an image of n bytes gives for byte o of its cluster, good or not. The usual entries first, as whole numbers.
pub fn found(e: u64, o: u64, version: u32, n: u64, bits: u32) -> Result<Found, Refusal>
    requires { (((9 ≤ bits) × (bits ≤ most_bits)) × ((2 ^ bits ≤ n) × (n ≤ most_length))) × (o < 2147483648) }
    ensures { result ≡ entry_found version (2 ^ bits) n e o }
{
    if qcow2_plain::is_plain(e, n, bits) {
        return Ok(Found::Host(qcow2_plain::bare_of(e) + o));
    }
    if e == 0 {
        return Ok(Found::Absent);
    }
    if qcow2_plain::is_marked(e, version, n, bits) {
        return Ok(Found::Zeros);
    }
    Err(refusal(e).into())
}
