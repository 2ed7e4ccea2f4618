// Whether a range can be read: it is held against the disk's size, then come the ways to the guest clusters that it touches, rising.
#![tactic(auto)]

ghost use Rattle.std.specs.Prelude.{◌≡◌, ℕ, ◌+◌, ◌-◌, ◌*◌, ◌/◌, ◌%◌, ◌^◌, ◌<◌, ◌≤◌, true, length};
ghost use Rattle.qcow2_spec.specs.Causes.{answer};
ghost use Rattle.qcow2_spec.specs.Header.{most_bits, most_length, most_reach, per_table, root_size};
ghost use Rattle.qcow2_spec.specs.Guest.{entry_way, way_number, ways_number, touched, range_number};
ghost use Rattle.qcow2_spec.specs.Opened.{Opened};
ghost use Rattle.qcow2_range.specs.Slots.{slot, numbers};

use qcow2_spec::Geometry;
use qcow2_spec::refusal::{Cause, Refusal};

// Whether an L2 entry is plain or empty, and so good in every version.
fn is_easy(e: u64, n: u64, bits: u32) -> bool
    requires { ((9 ≤ bits) × (bits ≤ most_bits)) × ((2 ^ bits ≤ n) × (n ≤ most_length)) }
    ensures { result ≡ true → (v : ℕ) → (at : ℕ) → way_number (entry_way v (2 ^ bits) n at e) ≡ 0 }
{
    if e == 0 {
        return true;
    }
    qcow2_plain::is_plain(e, n, bits)
}

// The first of the entries from an index to an end that is not easy, or the end. Apart from the loop over the others, so that an entry
// is one load here.
fn easy_end(table: &[u8], from: usize, end: usize, n: u64, bits: u32) -> usize
    requires { (((9 ≤ bits) × (bits ≤ most_bits)) × ((2 ^ bits ≤ n) × (n ≤ most_length))) × ((from ≤ end) × (8 * end ≤ length table.now)) }
    ensures { ((from ≤ result) × (result ≤ end)) × ((v : ℕ) → (at : ℕ) → numbers (slot v (2 ^ bits) n at table.now) from (end - from) ≡ numbers (slot v (2 ^ bits) n at table.now) result (end - result)) }
{
    for i in from..end {
        if !is_easy(endian::load64(table, 8 * i), n, bits) {
            return i;
        }
    }
    end
}

// The first bad entry from an index to an end of the L2 table at a place.
fn check_table(
    table: &[u8],
    from: usize,
    end: usize,
    at: usize,
    version: u32,
    n: u64,
    bits: u32,
) -> Result<(), Refusal>
    requires { (((9 ≤ bits) × (bits ≤ most_bits)) × ((2 ^ bits ≤ n) × (n ≤ most_length))) × (((from ≤ end) × (8 * end ≤ length table.now)) × (at + length table.now ≤ most_length)) }
    ensures { result ≡ answer (numbers (slot version (2 ^ bits) n at table.now) from (end - from)) }
{
    for i in easy_end(table, from, end, n, bits)..end {
        qcow2_found::way_in(table, i, at, version, n, bits)?;
    }
    Ok(())
}

// The same for the k guest clusters from one on, which all have one L1 entry.
fn check_row(image: &[u8], g: Geometry, guest: u64, k: usize) -> Result<(), Refusal>
    requires { ((Opened g image.now) × (guest / per_table image.now < root_size image.now g.root)) × ((0 < k) × (guest % per_table image.now + k ≤ per_table image.now)) }
    ensures { result ≡ answer (ways_number image.now g.root guest k) }
{
    let n = image.len() as u64;
    let e = qcow2_guest::l1_entry(image, g, guest);
    if qcow2_entry::good_l1(e, n, g.bits) {
        let t = qcow2_entry::place_of(e) as usize;
        if t == 0 {
            return Ok(());
        }
        let c = power::power(g.bits) as usize;
        let i = power::rest(guest, g.bits - 3) as usize;
        return check_table(&image[t..t + c], i, i + k, t, g.version, n, g.bits);
    }
    Err(Cause::Entry.into())
}

// The first bad way among the k guest clusters from one on. One L1 entry at a time.
fn check_ways(image: &[u8], g: Geometry, guest: u64, k: u64) -> Result<(), Refusal>
    requires { (Opened g image.now) × ((guest + k ≤ most_reach) × (guest + k ≤ root_size image.now g.root * per_table image.now)) }
    ensures { result ≡ answer (ways_number image.now g.root guest k) }
{
    // A while: how far a turn goes is known only in it.
    let mut i = 0;
    while i < k {
        let m = qcow2_guest::piece(guest + i, (k - i) as usize, g.bits - 3);
        check_row(image, g, guest + i, m)?;
        i += m as u64;
    }
    Ok(())
}

// How many guest clusters a range touches.
fn touched_count(x: u64, len: usize, bits: u32) -> u64
    requires { (bits ≤ most_bits) × (x + len ≤ most_reach) }
    ensures { result ≡ touched (2 ^ bits) x len }
{
    if len == 0 {
        return 0;
    }
    power::quotient(x + (len as u64 - 1), bits) + 1 - power::quotient(x, bits)
}

// Why a read of len bytes from x on is refused. The end of the range is not formed before it is known to lie on the disk.
pub fn check_read(image: &[u8], g: Geometry, x: u64, len: usize) -> Result<(), Refusal>
    requires { Opened g image.now }
    ensures { result ≡ answer (range_number image.now g.root x len) }
{
    if g.size < x {
        return Err(Cause::Range.into());
    }
    if g.size - x < len as u64 {
        return Err(Cause::Range.into());
    }
    let count = touched_count(x, len, g.bits);
    check_ways(image, g, power::quotient(x, g.bits), count)
}
