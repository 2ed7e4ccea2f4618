// Numbers of 32 bits against figures, by groups of 128: in an image with few references most figures are 0, and then the numbers that are not
// are told without widening the figures.
#![tactic(auto)]

ghost use Rattle.std.specs.Prelude.{◌≡◌, ◌+◌, ◌≤◌, length};
ghost use Rattle.choice.specs.Pick.{count};
ghost use Rattle.packed.specs.Packed.{unlike_at, under_at};
ghost use Rattle.packed.specs.Figures.{Ready, Tallied};

use packed::Compared;

// A group of d numbers from number k on. A whole one has a length that the compiler knows.
fn group32(block: &[u8], figures: &[u8], k: usize, d: usize) -> Compared
    requires { Ready 5 block.now figures.now × (k + d ≤ length figures.now) }
    ensures { (result.unlike ≡ count (unlike_at 5 block.now figures.now) k d) × (result.under ≡ count (under_at 5 block.now figures.now) k d) }
{
    if d == 128 && packed_narrow::all_blank(&figures[k..k + 128]) {
        return Compared {
            unlike: packed_words::filled32(block, k, 128),
            under: 0,
        };
    }
    packed_words::spread32(block, figures, k, d)
}

// All numbers.
pub fn numbers32(block: &[u8], figures: &[u8]) -> Compared
    requires { Ready 5 block.now figures.now }
    ensures { Tallied 5 block.now figures.now result.unlike result.under }
{
    let m = figures.len();
    let mut unlike: u16 = 0;
    let mut under: u16 = 0;
    let mut k = 0;
    // A `while`: the last group may be short.
    while k < m {
        let d = (m - k).min(128);
        let c = group32(block, figures, k, d);
        unlike += c.unlike;
        under += c.under;
        k += d;
    }
    Compared { unlike, under }
}
