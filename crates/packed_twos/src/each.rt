// Numbers against figures, one by one.
ghost use Rattle.std.specs.Prelude.{◌≡◌, not, ◌≤◌, eqb, ltb, if◌then◌else◌};
ghost use Rattle.packed_twos.specs.Twos.{Ready, Tallied};

use packed::Compared;

// 1 where a number is not the figure.
fn one_unlike(x: u64, figure: u64) -> u16
    ensures { (result ≡ (if not (eqb x figure) then 1 else 0)) × (result ≤ 1) }
{
    u16::from(x != figure)
}

// 1 where a number is below the figure.
fn one_under(x: u64, figure: u64) -> u16
    ensures { (result ≡ (if ltb x figure then 1 else 0)) × (result ≤ 1) }
{
    u16::from(x < figure)
}

// All numbers.
pub fn numbers(block: &[u8], order: u32, figures: &[u8]) -> Compared
    requires { Ready order block.now figures.now }
    ensures { Tallied order block.now figures.now result.unlike result.under }
{
    let m = figures.len() / 2;
    let width = power::power(order) as usize;
    let mut unlike: u16 = 0;
    let mut under: u16 = 0;
    for j in 0..m {
        let x = widths::load(block, order, width * j);
        let f = u64::from(endian::load16(figures, 2 * j));
        unlike += one_unlike(x, f);
        under += one_under(x, f);
    }
    Compared { unlike, under }
}
