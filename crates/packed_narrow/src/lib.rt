// Groups of bytes with whole numbers in each, against figures.
#![tactic(auto)]

ghost use Rattle.std.specs.Prelude.{◌≡◌, ◌+◌, ◌-◌, ◌*◌, ◌^◌, ◌≤◌, eqb, length};
ghost use Rattle.choice.specs.Pick.{all, count};
ghost use Rattle.packed.specs.Packed.{unlike_at, under_at};
ghost use Rattle.packed.specs.Figures.{Ready, Tallied, Grouped};

use packed::Compared;

// A group of bytes with whole numbers in each, against any figures.
fn spread(block: &[u8], order: u32, figures: &[u8]) -> Compared
    requires { (order ≤ 3) × Grouped (2 ^ (3 - order)) block.now figures.now }
    ensures { Tallied order block.now figures.now result.unlike result.under }
{
    match order {
        0 => packed_lanes::group::<u64>(block, figures),
        1 => packed_lanes::group::<u32>(block, figures),
        2 => packed_lanes::group::<u16>(block, figures),
        _ => packed_bytes::group8(block, figures),
    }
}

// Whether figures are all 0. In a full image the first one tells that they are not.
pub fn all_blank(figures: &[u8]) -> bool
    ensures { result ≡ all (λ b. eqb b 0) figures.now }
{
    if figures.first().is_some_and(|x| *x != 0) {
        return false;
    }
    blank::all_zeros(figures)
}

// The same. In an image with few references most figures are 0: the numbers that are not are then told without the figures.
fn group(block: &[u8], order: u32, figures: &[u8]) -> Compared
    requires { (order ≤ 3) × Grouped (2 ^ (3 - order)) block.now figures.now }
    ensures { Tallied order block.now figures.now result.unlike result.under }
{
    if all_blank(figures) {
        return Compared {
            unlike: packed_filled::filled(block, order),
            under: 0,
        };
    }
    spread(block, order, figures)
}

// The group of d bytes from byte k on, where per numbers lie in a byte.
pub fn group_at(
    block: &[u8],
    order: u32,
    figures: &[u8],
    per: usize,
    k: usize,
    d: usize,
) -> Compared
    requires { (order ≤ 3) × Ready order block.now figures.now × (per ≡ 2 ^ (3 - order)) × (d ≤ 128) × (per * (k + d) ≤ length figures.now) }
    ensures { (result.unlike ≡ count (unlike_at order block.now figures.now) (per * k) (per * d)) × (result.under ≡ count (under_at order block.now figures.now) (per * k) (per * d)) }
{
    group(&block[k..k + d], order, &figures[per * k..per * (k + d)])
}
