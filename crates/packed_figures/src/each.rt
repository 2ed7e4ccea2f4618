// Numbers against figures, one by one.
ghost use Rattle.std.specs.Prelude.{◌≡◌, ◌≤◌, length};
ghost use Rattle.choice.specs.Pick.{count};
ghost use Rattle.packed.specs.Packed.{unlike_at, under_at, Lie};

use packed::Compared;

// The numbers from index k on against their figures, one by one, where c has those before.
pub(crate) fn rest(c: Compared, block: &[u8], order: u32, figures: &[u8], k: usize) -> Compared
    requires { (Lie order (length block.now) (length figures.now) × (length figures.now ≤ 32768)) × ((k ≤ length figures.now) × ((c.unlike ≡ count (unlike_at order block.now figures.now) 0 k) × (c.under ≡ count (under_at order block.now figures.now) 0 k))) }
    ensures { (result.unlike ≡ count (unlike_at order block.now figures.now) 0 (length figures.now)) × (result.under ≡ count (under_at order block.now figures.now) 0 (length figures.now)) }
{
    let width = power::power(order) as usize;
    let mut unlike = c.unlike;
    let mut under = c.under;
    for j in k..figures.len() {
        let x = widths::load(block, order, width * j);
        let figure = u64::from(figures[j]);
        unlike += u16::from(x != figure);
        under += u16::from(x < figure);
    }
    Compared { unlike, under }
}
