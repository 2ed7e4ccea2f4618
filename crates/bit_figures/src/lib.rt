// Whether figures of two bytes are 0 or 1 as bits, four at a time.
#![tactic(auto)]

ghost use Rattle.std.specs.Prelude.{◌≡◌, true, ℕ, ◌+◌, ◌*◌, ◌≤◌, ◌<◌, length};
ghost use Rattle.endian.specs.Big.{be16};
ghost use Rattle.widths.specs.Width.{number};
ghost use Rattle.bit_figures.specs.Alike.{Alike, four};

// The bytes of bits that are looked at before a difference ends the search.
const GROUP: usize = 32;

// 2 to the powers 51, 34, 17 and 0: times four bits it has one of each in its place, three places too high.
const STEPS: u64 = 2251816993685505;

// The lowest bit of each of four figures.
const LOWEST: u64 = 281479271743489;

// The figures that four bits make, as load64 gives them.
fn spread(x: u64) -> u64
    requires { x < 16 }
    ensures { result ≡ four x }
{
    x * STEPS / 8 & LOWEST
}

// Where the figures of byte i's bits differ from these; 0 where they do not.
fn differ(scratch: &[u8], bits: &[u8], i: usize) -> u64
    requires { (16 * i + 16 ≤ length scratch.now) × (i < length bits.now) }
    ensures { result ≡ 0 → Alike scratch.now bits.now (8 * i) (8 * i + 8) }
{
    let x = u64::from(bits[i]);
    let low = endian::load64(scratch, 16 * i) ^ spread(x % 16);
    let high = endian::load64(scratch, 16 * i + 8) ^ spread(x / 16);
    low | high
}

// The same of a group of bytes, with no early exit.
fn group(scratch: &[u8], bits: &[u8], i: usize) -> u64
    requires { (16 * i + 512 ≤ length scratch.now) × (i + 32 ≤ length bits.now) }
    ensures { result ≡ 0 → Alike scratch.now bits.now (8 * i) (8 * i + 256) }
{
    let mut found: u64 = 0;
    for j in 0..GROUP {
        found |= differ(scratch, bits, i + j);
    }
    found
}

// Whether the figures of n groups are as their bits.
fn groups(scratch: &[u8], bits: &[u8], n: usize) -> bool
    requires { (512 * n ≤ length scratch.now) × (32 * n ≤ length bits.now) }
    ensures { result ≡ true → Alike scratch.now bits.now 0 (256 * n) }
{
    for g in 0..n {
        if group(scratch, bits, GROUP * g) != 0 {
            return false;
        }
    }
    true
}

// Whether those of the bytes from i up to n are.
fn bytes(scratch: &[u8], bits: &[u8], i: usize, n: usize) -> bool
    requires { (16 * n ≤ length scratch.now) × (n ≤ length bits.now) }
    ensures { result ≡ true → Alike scratch.now bits.now (8 * i) (8 * n) }
{
    for j in i..n {
        if differ(scratch, bits, j) != 0 {
            return false;
        }
    }
    true
}

// Whether those from i up to k are.
fn singles(scratch: &[u8], bits: &[u8], i: usize, k: usize) -> bool
    requires { (2 * k ≤ length scratch.now) × (k ≤ 8 * length bits.now) }
    ensures { result ≡ true → Alike scratch.now bits.now i k }
{
    for j in i..k {
        if u64::from(endian::load16(scratch, 2 * j)) != widths::load(bits, 0, j) {
            return false;
        }
    }
    true
}

// Whether each of the first k figures is 0 or 1 as its bit.
pub fn same(scratch: &[u8], bits: &[u8], k: usize) -> bool
    requires { (2 * k ≤ length scratch.now) × (k ≤ 8 * length bits.now) }
    ensures { result ≡ true → (j : ℕ) → j < k → be16 scratch.now (2 * j) ≡ number 1 bits.now j }
{
    groups(scratch, bits, k / 256)
        && bytes(scratch, bits, k / 256 * 32, k / 8)
        && singles(scratch, bits, k / 8 * 8, k)
}
