// Numbers of 16 bits against figures of two bytes: they and the figures are alike, two bytes with the highest first.
#![tactic(auto)]

ghost use Rattle.std.specs.Prelude.{◌≡◌, true, not, ◌&&◌, ◌+◌, ◌*◌, ◌/◌, ◌%◌, ◌≤◌, eqb, ltb, if◌then◌else◌};
ghost use Rattle.packed_twos.specs.Twos.{Ready, Tallied};

use packed::Compared;

// 1 where turned bytes differ.
fn unlike16(t: u16, f: u16) -> u16
    ensures { (result ≡ (if eqb t f then 0 else 1)) × (result ≤ 1) }
{
    u16::from(t != f)
}

// Turned bytes turned back: a rotation, which many numbers undergo at once.
fn back(t: u16) -> u16
    ensures { result ≡ t / 256 + t % 256 * 256 }
{
    t / 256 + t % 256 * 256
}

// 1 where a number is below the figure.
fn under16(x: u16, figure: u16) -> u16
    ensures { (result ≡ (if ltb x figure then 1 else 0)) × (result ≤ 1) }
{
    u16::from(x < figure)
}

// Whether all numbers are the figures.
fn alike16(block: &[u8], figures: &[u8]) -> bool
    requires { Ready 4 block.now figures.now }
    ensures { result ≡ true → Tallied 4 block.now figures.now 0 0 }
{
    let m = figures.len() / 2;
    let mut same = true;
    for j in 0..m {
        let t = packed::turned16(block, 2 * j);
        let f = packed::turned16(figures, 2 * j);
        same &= t == f;
    }
    same
}

// What a pass over turned bytes counts: those that differ, and those that are zero where the figure is not; and the bits of all figures.
#[derive(Clone, Copy)]
pub(crate) struct Pass {
    pub(crate) unlike: u16,
    pub(crate) zeros: u16,
    pub(crate) seen: u16,
}

// 1 where turned bytes are zero and the figure's are not.
fn zero16(t: u16, f: u16) -> u16
    ensures { (result ≡ (if eqb t 0 && not (eqb f 0) then 1 else 0)) × (result ≤ 1) }
{
    u16::from((t == 0) & (f != 0))
}

// All numbers. Where no figure is above 1, a number is below its figure where it is zero and the figure is not.
fn pass16(block: &[u8], figures: &[u8]) -> Pass
    requires { Ready 4 block.now figures.now }
    ensures { result.seen % 256 ≡ 0 → result.seen / 256 ≤ 1 → Tallied 4 block.now figures.now result.unlike result.zeros }
{
    let m = figures.len() / 2;
    let mut unlike: u16 = 0;
    let mut zeros: u16 = 0;
    let mut seen: u16 = 0;
    for j in 0..m {
        let t = packed::turned16(block, 2 * j);
        let f = packed::turned16(figures, 2 * j);
        unlike += unlike16(t, f);
        zeros += zero16(t, f);
        seen |= f;
    }
    Pass {
        unlike,
        zeros,
        seen,
    }
}

// All numbers, one by one.
fn each16(block: &[u8], figures: &[u8]) -> Compared
    requires { Ready 4 block.now figures.now }
    ensures { Tallied 4 block.now figures.now result.unlike result.under }
{
    let m = figures.len() / 2;
    let mut unlike: u16 = 0;
    let mut under: u16 = 0;
    for j in 0..m {
        let t = packed::turned16(block, 2 * j);
        let f = packed::turned16(figures, 2 * j);
        unlike += unlike16(t, f);
        under += under16(back(t), back(f));
    }
    Compared { unlike, under }
}

// All numbers. Mostly they are the figures, which is seen in half the time, or no figure is above 1.
pub fn numbers16(block: &[u8], figures: &[u8]) -> Compared
    requires { Ready 4 block.now figures.now }
    ensures { Tallied 4 block.now figures.now result.unlike result.under }
{
    if alike16(block, figures) {
        return Compared {
            unlike: 0,
            under: 0,
        };
    }
    let p = pass16(block, figures);
    if p.seen == 0 || p.seen == 256 {
        return Compared {
            unlike: p.unlike,
            under: p.zeros,
        };
    }
    each16(block, figures)
}
