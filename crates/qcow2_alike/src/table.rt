// Entries of an L2 table that go on alike. A loop for each kind of translation, so that an entry is one load and few tests.
ghost use Rattle.std.specs.Prelude.{◌≡◌, ℕ, ◌+◌, ◌^◌, ◌<◌, Ok};
ghost use Rattle.qcow2_spec.specs.Runs.{moved, found_host};
ghost use Rattle.qcow2_spec.specs.declared.Found.TheVariants.{Host, Zeros, Absent};
ghost use Rattle.qcow2_alike.specs.Alike.{Entries, entries_end};

use qcow2_spec::Found;
use qcow2_spec::refusal::Refusal;

// The first of the entries from an index to an end that does not go on from host offset h. Twice the entries are
// compared, so that bit 63 does not count and an entry is one load.
fn host_end(table: &[u8], from: usize, end: usize, h: u64, n: u64, bits: u32) -> usize
    requires { (Entries bits n from end table.now) × (h < 9223372036854775808) }
    ensures { (v : ℕ) → result ≡ entries_end v (2 ^ bits) n table.now (Ok (Host h)) from from end }
{
    let step = 2 * power::power(bits);
    let mut want = 2 * h;
    for k in from..end {
        let e = endian::load64(table, 8 * k);
        if qcow2_plain::twice(e) != want {
            return k;
        }
        if !qcow2_plain::is_plain(e, n, bits) {
            return k;
        }
        want += step;
    }
    end
}

// The first that has a mark or a place.
fn empty_end(table: &[u8], from: usize, end: usize, n: u64, bits: u32) -> usize
    requires { Entries bits n from end table.now }
    ensures { (v : ℕ) → result ≡ entries_end v (2 ^ bits) n table.now (Ok Absent) from from end }
{
    for k in from..end {
        if endian::load64(table, 8 * k) != 0 {
            return k;
        }
    }
    end
}

// The first without the zero mark.
fn marked_end(table: &[u8], from: usize, end: usize, version: u32, n: u64, bits: u32) -> usize
    requires { Entries bits n from end table.now }
    ensures { result ≡ entries_end version (2 ^ bits) n table.now (Ok Zeros) from from end }
{
    for k in from..end {
        if !qcow2_plain::is_marked(endian::load64(table, 8 * k), version, n, bits) {
            return k;
        }
    }
    end
}

// The first that does not give f, which is no host offset.
fn same_end(
    table: &[u8],
    from: usize,
    end: usize,
    f: &Result<Found, Refusal>,
    version: u32,
    n: u64,
    bits: u32,
) -> usize
    requires { (Entries bits n from end table.now) × ((j : ℕ) → moved f.now j ≡ f.now) }
    ensures { result ≡ entries_end version (2 ^ bits) n table.now f.now from from end }
{
    for k in from..end {
        let e = endian::load64(table, 8 * k);
        if !crate::same::same(&qcow2_found::found(e, 0, version, n, bits), f) {
            return k;
        }
    }
    end
}

// The first that does not go on from what lies i bytes on from f.
pub fn entries_end(
    table: &[u8],
    from: usize,
    end: usize,
    f: &Result<Found, Refusal>,
    i: u64,
    version: u32,
    n: u64,
    bits: u32,
) -> usize
    requires { (Entries bits n from end table.now) × (found_host f.now + i < 9223372036854775808) }
    ensures { result ≡ entries_end version (2 ^ bits) n table.now (moved f.now i) from from end }
{
    match f {
        Ok(Found::Host(h)) => host_end(table, from, end, *h + i, n, bits),
        Ok(Found::Absent) => empty_end(table, from, end, n, bits),
        Ok(Found::Zeros) => marked_end(table, from, end, version, n, bits),
        Err(_) => same_end(table, from, end, f, version, n, bits),
    }
}
