// How many numbers of at most 8 bits are not 0, whole bytes at a time. Where no figure is above 0, these are the numbers that differ.
#![tactic(auto)]

ghost use Rattle.std.specs.Prelude.{◌≡◌, ◌*◌, ◌^◌, ◌-◌, ◌≤◌, ◌<◌, length};
ghost use Rattle.choice.specs.Pick.{count};
ghost use Rattle.packed_filled.specs.Filled.{bit_count, filled_in, filled_at};

// The bits of a byte that are 1, added by twos, by fours and by eights.
fn ones(x: u16) -> u16
    requires { x < 256 }
    ensures { result ≡ bit_count x }
{
    let twos = (x & 85) + (x / 2 & 85);
    let fours = (twos & 51) + (twos / 4 & 51);
    fours % 16 + fours / 16
}

// The numbers of 1 or 2 bits of a byte that are not 0: the bits of each are joined to its lowest.
fn filled_in(x: u16, order: u32) -> u16
    requires { (order ≤ 1) × (x < 256) }
    ensures { (result ≡ filled_in order x) × (result ≤ 8) }
{
    if order == 0 {
        return ones(x);
    }
    ones((x | x / 2) & 85)
}

// The numbers of some bytes that are not 0.
fn filled_bytes(block: &[u8], order: u32) -> u16
    requires { (order ≤ 1) × (length block.now ≤ 128) }
    ensures { result ≡ count (filled_at order block.now) 0 (2 ^ (3 - order) * length block.now) }
{
    let mut n: u16 = 0;
    for x in block {
        n += filled_in(u16::from(*x), order);
    }
    n
}

// The numbers of 4 bits that are not 0: of the lower and of the upper ones so few that sums of one byte hold them, so that 16 bytes are taken at a time.
fn filled_halves(block: &[u8]) -> u16
    requires { length block.now ≤ 128 }
    ensures { result ≡ count (filled_at 2 block.now) 0 (2 * length block.now) }
{
    let mut low: u8 = 0;
    let mut high: u8 = 0;
    for x in block {
        low += packed_bytes::unlike8(*x % 16, 0);
        high += packed_bytes::unlike8(*x / 16, 0);
    }
    u16::from(low) + u16::from(high)
}

// The numbers of 8 bits that are not 0, in a sum of one byte too.
fn filled_whole(block: &[u8]) -> u16
    requires { length block.now ≤ 128 }
    ensures { result ≡ count (filled_at 3 block.now) 0 (length block.now) }
{
    let mut n: u8 = 0;
    for x in block {
        n += packed_bytes::unlike8(*x, 0);
    }
    u16::from(n)
}

// The same, with an order that the compiler knows in each loop.
pub fn filled(block: &[u8], order: u32) -> u16
    requires { (order ≤ 3) × (length block.now ≤ 128) }
    ensures { result ≡ count (filled_at order block.now) 0 (2 ^ (3 - order) * length block.now) }
{
    match order {
        0 => filled_bytes(block, 0),
        1 => filled_bytes(block, 1),
        2 => filled_halves(block),
        _ => filled_whole(block),
    }
}
