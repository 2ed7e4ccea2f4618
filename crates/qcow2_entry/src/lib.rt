// Entries of L1 and L2 tables as numbers: their parts, and whether they are good.
#![tactic(auto)]

ghost use Rattle.std.specs.Prelude.{◌≡◌, ◌*◌, ◌^◌, ◌<◌, ◌≤◌, not, ◌||◌, eqb};
ghost use Rattle.qcow2_spec.specs.Entries.{place, good_place, good_l1, good_l2, compressed, zero_mark, common};
ghost use Rattle.qcow2_spec.specs.Header.{most_bits};

// Bits 9 to 55.
pub fn place_of(e: u64) -> u64
    ensures { (result ≡ place e) × (result < 72057594037927936) }
{
    e / 512 % 140737488355328 * 512
}

// Whether an entry's place is a cluster of the image, or place and bit 63 are zero.
fn good_place(e: u64, n: u64, bits: u32) -> bool
    requires { bits ≤ most_bits }
    ensures { result ≡ good_place (2 ^ bits) n e }
{
    let p = place_of(e);
    if p == 0 {
        return e / 9223372036854775808 == 0;
    }
    if power::rest(p, bits) != 0 {
        return false;
    }
    if power::past(n, p, power::power(bits)) {
        return false;
    }
    true
}

// Whether an entry has a place that others may refer to too.
pub fn is_common(e: u64) -> bool
    ensures { result ≡ common e }
{
    if e / 9223372036854775808 == 1 {
        return false;
    }
    place_of(e) != 0
}

pub fn good_l1(e: u64, n: u64, bits: u32) -> bool
    requires { bits ≤ most_bits }
    ensures { result ≡ good_l1 (2 ^ bits) n e }
{
    if e % 512 != 0 {
        return false;
    }
    if e / 72057594037927936 % 128 != 0 {
        return false;
    }
    good_place(e, n, bits)
}

pub fn is_compressed(e: u64) -> bool
    ensures { result ≡ compressed e }
{
    e / 4611686018427387904 % 2 == 1
}

pub fn has_mark(e: u64) -> bool
    ensures { result ≡ zero_mark e }
{
    e % 2 == 1
}

// Whether an entry's zero mark is allowed.
fn good_mark(e: u64, version: u32) -> bool
    ensures { result ≡ not (zero_mark e) || eqb version 3 }
{
    if has_mark(e) {
        return version == 3;
    }
    true
}

pub fn good_l2(e: u64, version: u32, n: u64, bits: u32) -> bool
    requires { bits ≤ most_bits }
    ensures { result ≡ good_l2 version (2 ^ bits) n e }
{
    if is_compressed(e) {
        return false;
    }
    if e % 512 / 2 != 0 {
        return false;
    }
    if e / 72057594037927936 % 64 != 0 {
        return false;
    }
    if good_mark(e, version) {
        return good_place(e, n, bits);
    }
    false
}
