// Whether one of many numbers is 0.
#![tactic(auto)]

ghost use Rattle.std.specs.Prelude.{◌≡◌, ◌+◌, ◌-◌, ◌^◌, ◌≤◌, ltb, length};
ghost use Rattle.choice.specs.Pick.{first};
ghost use Rattle.packed.specs.Packed.{zero_at};

use packed_zerobytes::{some_halves, some_in_bytes};
use packed_zerowords::some_in_words;

// Whether one of the numbers in 2 to the power E bytes, 512 or 32, is 0. The usual width comes first: for one block the tests count.
pub fn zero_in<const E: u32>(part: &[u8], order: u32) -> bool
    requires { ((order ≤ 6) × (order ≤ E + 3)) × ((E ≤ 9) × (length part.now ≡ 2 ^ E)) }
    ensures { result ≡ ltb (first (zero_at order part.now) 0 (2 ^ (E + 3 - order))) (2 ^ (E + 3 - order)) }
{
    let n: usize = 1 << E;
    if order == 4 {
        return some_in_words::<4>(part, n / 2);
    }
    match order {
        0 => some_in_bytes(part, 0, n),
        1 => some_in_bytes(part, 1, n),
        2 => some_halves(part, n),
        3 => some_in_bytes(part, 3, n),
        5 => some_in_words::<5>(part, n / 4),
        _ => some_in_words::<6>(part, n / 8),
    }
}
