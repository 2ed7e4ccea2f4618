// Numbers of 2 bits, four at a time.
ghost use Rattle.std.specs.Prelude.{refl};
ghost use Rattle.std.proofs.Common.{rules};

use crate::Word;

impl Word for u32 {
    ghost order = { 1 };

    ghost value = { λ x. x };

    ghost LANES = { 4 };

    const LANES: usize = 4;

    // First two numbers in each half, then one in each byte.
    fn spread(x: u8) -> u32 {
        let x = u32::from(x);
        let y = (x | x * 4096) & 983055;
        (y | y * 64) & 50529027
    }

    fn turned(b: &[u8], at: usize) -> u32 {
        packed::turned32(b, at)
    }

    fn above(self, other: u32) -> u32 {
        (self + (2139062143 - other)) / 128 & 16843009
    }

    fn none() -> u32 {
        0
    }

    fn plus(self, other: u32) -> u32 {
        self + other
    }

    fn sum(self) -> u16 {
        (self % 256 + self / 256 % 256 + self / 65536 % 256 + self / 16777216 % 256) as u16
    }

    ghost narrow = { Prim.search rules };

    ghost whole = { refl };
}
