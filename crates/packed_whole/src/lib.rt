// Numbers of whole bytes against figures.
#![tactic(auto)]

ghost use Rattle.std.specs.Prelude.{◌≡◌, ◌+◌, ◌*◌, ◌^◌, ◌≤◌, ◌<◌, ℕ, not, eqb, ltb, length, if◌then◌else◌};
ghost use Rattle.choice.specs.Pick.{count};
ghost use Rattle.packed.specs.Packed.{packed as number, unlike_at, under_at};
ghost use Rattle.packed.specs.Figures.{Ready, Tallied};

use packed::Compared;

mod halves;
mod narrow;

pub use halves::Sums64;
pub use narrow::{Sums16, Sums32};

// 1 where a turned number of 32 bits is not the figure, whatever the figure.
pub fn unlike32(t: u32, figure: u8) -> u32
    ensures { (result ≡ (if eqb t (figure * 16777216) then 0 else 1)) × (result ≤ 1) }
{
    u32::from(t != u32::from(figure) * 16777216)
}

// How many numbers of 2 to the power order bits are not their figures, and how many are below them. As no figure is above 1, only 0 is below its
// figure, and then by the figure; and a turned number is 0 exactly where the number is.
pub trait Sums: Copy {
    ghost order: { ℕ };

    ghost unlike: { Self → ℕ };

    ghost under: { Self → ℕ };

    fn none() -> Self
        ensures { (unlike result ≡ 0) × (under result ≡ 0) };

    // With number j and its figure.
    fn with(self, block: &[u8], j: usize, figure: u8) -> Self
        requires { (2 ^ order * (j + 1) ≤ 8 * length block.now) × (figure ≤ 1) × (unlike self < 32768) × (under self < 32768) }
        ensures { (unlike result ≡ unlike self + (if not (eqb (number order block.now j) figure) then 1 else 0)) × (under result ≡ under self + (if ltb (number order block.now j) figure then 1 else 0)) };

    fn told(self) -> Compared
        requires { (unlike self ≤ 32768) × (under self ≤ 32768) }
        ensures { (result.unlike ≡ unlike self) × (result.under ≡ under self) };
}

// d numbers from number k on.
pub fn spread<S: Sums>(block: &[u8], figures: &[u8], k: usize, d: usize) -> Compared
    requires { Ready S.order block.now figures.now × (k + d ≤ length figures.now) }
    ensures { (result.unlike ≡ count (unlike_at S.order block.now figures.now) k d) × (result.under ≡ count (under_at S.order block.now figures.now) k d) }
{
    let mut sums = S::none();
    for j in 0..d {
        sums = sums.with(block, k + j, figures[k + j]);
    }
    sums.told()
}

// Numbers of 16 bits.
pub fn numbers16(block: &[u8], figures: &[u8]) -> Compared
    requires { Ready 4 block.now figures.now }
    ensures { Tallied 4 block.now figures.now result.unlike result.under }
{
    spread::<Sums16>(block, figures, 0, figures.len())
}

// Numbers of 64 bits.
pub fn numbers64(block: &[u8], figures: &[u8]) -> Compared
    requires { Ready 6 block.now figures.now }
    ensures { Tallied 6 block.now figures.now result.unlike result.under }
{
    spread::<Sums64>(block, figures, 0, figures.len())
}
