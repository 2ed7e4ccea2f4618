// Whether one of the numbers of at most 8 bits in some bytes is 0.
#![tactic(auto)]

ghost use Rattle.std.specs.Prelude.{◌≡◌, ◌*◌, ◌≤◌, length};
ghost use Rattle.packed.specs.Packed.{zero_at};
ghost use Rattle.packed_zerowords.specs.Found.{some};
ghost use Rattle.packed_zerobytes.specs.Holds.{per, holds as byte_holds};

// Whether one of the numbers of byte x is 0: where none is, the lowest bit of each is 1 once its other bits are joined to it.
fn holds(x: u8, order: u32) -> bool
    requires { order ≤ 3 }
    ensures { result ≡ byte_holds order x }
{
    let y = x | x / 2;
    match order {
        0 => x != 255,
        1 => y & 85 != 85,
        2 => (y | y / 4) & 17 != 17,
        _ => x == 0,
    }
}

// Whether one of the numbers in n bytes is 0.
pub fn some_in_bytes(part: &[u8], order: u32, n: usize) -> bool
    requires { (order ≤ 3) × (n ≤ length part.now) }
    ensures { result ≡ some (zero_at order part.now) (per order * n) }
{
    let mut found = false;
    for &x in &part[..n] {
        found |= holds(x, order);
    }
    found
}

// The same for numbers of 4 bits, by the least of the lower ones and the least of all bytes: two instructions for 16 bytes each.
pub fn some_halves(part: &[u8], n: usize) -> bool
    requires { n ≤ length part.now }
    ensures { result ≡ some (zero_at 2 part.now) (per 2 * n) }
{
    let mut low: u8 = 15;
    let mut least: u8 = 255;
    for &x in &part[..n] {
        low = low.min(x % 16);
        least = least.min(x);
    }
    low == 0 || least < 16
}
