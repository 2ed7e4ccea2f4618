// Numbers of 64 bits, each as its two turned halves: SSE2 compares at most 32 bits.
use crate::Sums;
use packed::Compared;

#[derive(Clone, Copy)]
pub struct Sums64 {
    unlike: u32,
    under: u32,
}

impl Sums for Sums64 {
    ghost order = { 6 };

    ghost unlike = { λ s. s.unlike };

    ghost under = { λ s. s.under };

    fn none() -> Sums64 {
        Sums64 {
            unlike: 0,
            under: 0,
        }
    }

    fn with(self, block: &[u8], j: usize, figure: u8) -> Sums64 {
        let h = packed::turned32(block, 8 * j);
        let t = packed::turned32(block, 8 * j + 4);
        let f = u32::from(figure);
        Sums64 {
            unlike: self.unlike + u32::from((h != 0) | (t != f * 16777216)),
            under: self.under + u32::from((h == 0) & (t == 0)) * f,
        }
    }

    fn told(self) -> Compared {
        Compared {
            unlike: self.unlike as u16,
            under: self.under as u16,
        }
    }
}
