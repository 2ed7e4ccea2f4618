// Numbers of 8 bits against figures.
#![tactic(auto)]

ghost use Rattle.std.specs.Prelude.{◌≡◌, not, ◌≤◌, eqb, ltb, if◌then◌else◌};
ghost use Rattle.packed.specs.Figures.{Tallied, Grouped};

use packed::Compared;

// 1 where a number is not the figure.
pub fn unlike8(x: u8, figure: u8) -> u8
    ensures { (result ≡ (if not (eqb x figure) then 1 else 0)) × (result ≤ 1) }
{
    u8::from(x != figure)
}

// 1 where a number is below the figure.
fn under8(x: u8, figure: u8) -> u8
    ensures { (result ≡ (if ltb x figure then 1 else 0)) × (result ≤ 1) }
{
    u8::from(x < figure)
}

// A group of numbers of 8 bits: few enough that sums of one byte hold them, so that 16 are taken at a time.
pub fn group8(block: &[u8], figures: &[u8]) -> Compared
    requires { Grouped 1 block.now figures.now }
    ensures { Tallied 3 block.now figures.now result.unlike result.under }
{
    let mut unlike: u8 = 0;
    let mut under: u8 = 0;
    for (b, x) in block.iter().enumerate() {
        unlike += unlike8(*x, figures[b]);
        under += under8(*x, figures[b]);
    }
    Compared {
        unlike: u16::from(unlike),
        under: u16::from(under),
    }
}
