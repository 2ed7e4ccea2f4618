// Numbers of 1 bit, eight at a time.
ghost use Rattle.std.specs.Prelude.{refl};
ghost use Rattle.std.proofs.Common.{rules};

use crate::Word;

impl Word for u64 {
    ghost order = { 0 };

    ghost value = { λ x. x };

    ghost LANES = { 8 };

    const LANES: usize = 8;

    // First four bits in each half, then two in each quarter.
    fn spread(x: u8) -> u64 {
        let x = u64::from(x);
        let y = (x | x * 268435456) & 64424509455;
        let z = (y | y * 16384) & 844437815230467;
        (z | z * 128) & 72340172838076673
    }

    fn turned(b: &[u8], at: usize) -> u64 {
        u64::from(packed::turned32(b, at)) + u64::from(packed::turned32(b, at + 4)) * 4294967296
    }

    fn above(self, other: u64) -> u64 {
        (self + (9187201950435737471 - other)) / 128 & 72340172838076673
    }

    fn none() -> u64 {
        0
    }

    fn plus(self, other: u64) -> u64 {
        self + other
    }

    fn sum(self) -> u16 {
        (self % 256
            + self / 256 % 256
            + self / 65536 % 256
            + self / 16777216 % 256
            + self / 4294967296 % 256
            + self / 1099511627776 % 256
            + self / 281474976710656 % 256
            + self / 72057594037927936 % 256) as u16
    }

    ghost narrow = { Prim.search rules };

    ghost whole = { refl };
}
