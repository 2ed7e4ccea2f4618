// Numbers of 4 bits, two at a time.
ghost use Rattle.std.specs.Prelude.{refl};
ghost use Rattle.std.proofs.Common.{rules};

use crate::Word;

impl Word for u16 {
    ghost order = { 2 };

    ghost value = { λ x. x };

    ghost LANES = { 2 };

    const LANES: usize = 2;

    fn spread(x: u8) -> u16 {
        let x = u16::from(x);
        x % 16 + x / 16 * 256
    }

    fn turned(b: &[u8], at: usize) -> u16 {
        packed::turned16(b, at)
    }

    fn above(self, other: u16) -> u16 {
        (self + (32639 - other)) / 128 & 257
    }

    fn none() -> u16 {
        0
    }

    fn plus(self, other: u16) -> u16 {
        self + other
    }

    fn sum(self) -> u16 {
        self % 256 + self / 256 % 256
    }

    ghost narrow = { Prim.search rules };

    ghost whole = { refl };
}
