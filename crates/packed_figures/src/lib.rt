// Numbers against figures of one byte each.
#![tactic(auto)]

ghost use Rattle.std.specs.Prelude.{◌≡◌, ◌≤◌, length};
ghost use Rattle.choice.specs.Pick.{count};
ghost use Rattle.packed.specs.Packed.{unlike_at, under_at, Lie, Single};
ghost use Rattle.packed.specs.Figures.{Ready, Tallied};

use packed::Compared;

mod each;

// Numbers of at most 8 bits, by groups of 128 bytes, a length that the compiler knows, and one by one those that are left.
fn narrow(block: &[u8], order: u32, figures: &[u8]) -> Compared
    requires { (order ≤ 3) × Ready order block.now figures.now }
    ensures { Tallied order block.now figures.now result.unlike result.under }
{
    let per = power::power(3 - order) as usize;
    let n = figures.len() / per;
    let mut unlike: u16 = 0;
    let mut under: u16 = 0;
    let mut k = 0;
    // A `while`: it goes on by groups, and what is left after the last is looked at one by one.
    while 128 <= n - k {
        let c = packed_narrow::group_at(block, order, figures, per, k, 128);
        unlike += c.unlike;
        under += c.under;
        k += 128;
    }
    each::rest(Compared { unlike, under }, block, order, figures, per * k)
}

// How many numbers are not the figures, and how many are below them, where no figure is above 1.
pub fn compare(block: &[u8], order: u32, figures: &[u8]) -> Compared
    requires { (Lie order (length block.now) (length figures.now) × (length figures.now ≤ 32768)) × Single figures.now }
    ensures { (result.unlike ≡ count (unlike_at order block.now figures.now) 0 (length figures.now)) × (result.under ≡ count (under_at order block.now figures.now) 0 (length figures.now)) }
{
    // Not a match: the compiler then kept the tests for 4 to 6 in the loop of each::rest.
    if order == 4 {
        return packed_whole::numbers16(block, figures);
    }
    if order == 5 {
        return packed_groups::numbers32(block, figures);
    }
    if order == 6 {
        return packed_whole::numbers64(block, figures);
    }
    narrow(block, order, figures)
}
