// Groups of numbers of at most 4 bits against figures: each number is spread to a byte of its own, and all of a byte are compared at once.
#![tactic(auto)]

ghost use Rattle.std.specs.Prelude.{◌≡◌, ◌+◌, ◌-◌, ◌^◌, ◌≤◌, ℕ, length};
ghost use Rattle.packed.specs.Figures.{Tallied, Grouped};
ghost use Rattle.packed.specs.Lanes.{lanes, bytes_at, parts};
ghost use Rattle.packed_lanes.specs.Sums.{above as above_in, sum as sum_of};

use packed::Compared;

mod bits;
mod halves;
mod quarters;

// A word with a byte for each of the numbers of 2 to the power order bits in one byte.
pub trait Word: Copy {
    ghost order: { ℕ };

    ghost value: { Self → ℕ };

    ghost LANES: { ℕ };

    const LANES: usize;

    // The numbers of a byte, each in a byte of its own. By shifts and masks, which are taken many at a time.
    fn spread(x: u8) -> Self
        ensures { value result ≡ lanes (2 ^ (3 - order)) (parts order x) };

    // As many bytes with the first lowest.
    fn turned(b: &[u8], at: usize) -> Self
        requires { at + 2 ^ (3 - order) ≤ length b.now }
        ensures { value result ≡ lanes (2 ^ (3 - order)) (bytes_at b.now at) };

    // 1 in each byte where its own is above the other's. No byte of either is above 127, so that nothing is carried from byte to byte.
    fn above(self, other: Self) -> Self
        requires { (value self ≤ lanes (2 ^ (3 - order)) (λ i. 127)) × (value other ≤ lanes (2 ^ (3 - order)) (λ i. 127)) }
        ensures { value result ≡ above_in (2 ^ (3 - order)) (value self) (value other) };

    fn none() -> Self
        ensures { value result ≡ 0 };

    fn plus(self, other: Self) -> Self
        requires { value self + value other ≤ lanes (2 ^ (3 - order)) (λ i. 128) }
        ensures { value result ≡ value self + value other };

    // The sum of the bytes.
    fn sum(self) -> u16
        ensures { (result ≡ sum_of (2 ^ (3 - order)) (value self)) × (result ≤ 2040) };

    ghost narrow: { order ≤ 2 };

    ghost whole: { LANES ≡ 2 ^ (3 - order) };
}

// A group of such numbers. Each byte of a sum counts the numbers in its place, at most one for each of 128 bytes.
pub fn group<W: Word>(block: &[u8], figures: &[u8]) -> Compared
    requires { Grouped (2 ^ (3 - W.order)) block.now figures.now }
    ensures { Tallied W.order block.now figures.now result.unlike result.under }
{
    let mut over = W::none();
    let mut under = W::none();
    for (b, x) in block.iter().enumerate() {
        let s = W::spread(*x);
        let f = W::turned(figures, W::LANES * b);
        over = over.plus(s.above(f));
        under = under.plus(f.above(s));
    }
    let low = under.sum();
    Compared {
        unlike: over.sum() + low,
        under: low,
    }
}
