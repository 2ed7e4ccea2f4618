// Some numbers of 32 bits one after another: how many are not 0, and how they stand against figures.
#![tactic(auto)]

ghost use Rattle.std.specs.Prelude.{◌≡◌, ◌+◌, ◌*◌, ◌≤◌, length};
ghost use Rattle.choice.specs.Pick.{count};
ghost use Rattle.packed.specs.Packed.{unlike_at, under_at};
ghost use Rattle.packed.specs.Figures.{Ready};
ghost use Rattle.packed_filled.specs.Filled.{filled_at};

use packed::Compared;
use packed_whole::Sums32;

// How many of d numbers from number k on are not 0. A turned number is 0 exactly where the number is.
pub fn filled32(block: &[u8], k: usize, d: usize) -> u16
    requires { (4 * (k + d) ≤ length block.now) × (k + d ≤ 32768) }
    ensures { result ≡ count (filled_at 5 block.now) k d }
{
    let mut n: u32 = 0;
    for j in 0..d {
        n += u32::from(packed::turned32(block, 4 * (k + j)) != 0);
    }
    n as u16
}

// d numbers from number k on against their figures.
pub fn spread32(block: &[u8], figures: &[u8], k: usize, d: usize) -> Compared
    requires { Ready 5 block.now figures.now × (k + d ≤ length figures.now) }
    ensures { (result.unlike ≡ count (unlike_at 5 block.now figures.now) k d) × (result.under ≡ count (under_at 5 block.now figures.now) k d) }
{
    packed_whole::spread::<Sums32>(block, figures, k, d)
}
