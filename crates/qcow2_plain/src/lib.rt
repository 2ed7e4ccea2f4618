// The usual entries, by whole numbers: a place and bit 63 or nothing, alone or with the zero mark.
#![tactic(auto)]

ghost use Rattle.std.specs.Prelude.{◌≡◌, ◌*◌, ◌^◌, ◌<◌, ◌≤◌};
ghost use Rattle.qcow2_plain.specs.Plain.{bare, plain, marked};
ghost use Rattle.qcow2_spec.specs.Header.{most_bits, most_length};

// An entry but for bit 63: the place of a plain one.
pub fn bare_of(e: u64) -> u64
    ensures { (result ≡ bare e) × (result < 9223372036854775808) }
{
    e % 9223372036854775808
}

// Twice that. A shift leaves the entry one load, where a mask would split it.
pub fn twice(e: u64) -> u64
    ensures { result ≡ 2 * bare e }
{
    e << 1
}

// Whether an entry is a place, and bit 63 or nothing. One test tells that the place is neither 0 nor past the last cluster.
pub fn is_plain(e: u64, n: u64, bits: u32) -> bool
    requires { (bits ≤ most_bits) × ((2 ^ bits ≤ n) × (n ≤ most_length)) }
    ensures { result ≡ plain (2 ^ bits) n e }
{
    let y = std::num::wrapping_sub_u64(twice(e), 2);
    if 2 * (n - power::power(bits)) <= y {
        return false;
    }
    power::rest(e, bits) == 0
}

// Whether an entry has the zero mark by right: alone, or with a place. One test for both numbers without a place, since the usual one has one.
pub fn is_marked(e: u64, version: u32, n: u64, bits: u32) -> bool
    requires { (bits ≤ most_bits) × ((2 ^ bits ≤ n) × (n ≤ most_length)) }
    ensures { result ≡ marked version (2 ^ bits) n e }
{
    if version != 3 {
        return false;
    }
    if e < 2 {
        return e == 1;
    }
    is_plain(e - 1, n, bits)
}
