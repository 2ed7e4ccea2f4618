// Numbers of 16 and 32 bits, in sums of their width, so that as many are added at a time as are compared.
use crate::{Sums, unlike32};
use packed::Compared;

#[derive(Clone, Copy)]
pub struct Sums16 {
    unlike: u16,
    under: u16,
}

impl Sums for Sums16 {
    ghost order = { 4 };

    ghost unlike = { λ s. s.unlike };

    ghost under = { λ s. s.under };

    fn none() -> Sums16 {
        Sums16 {
            unlike: 0,
            under: 0,
        }
    }

    fn with(self, block: &[u8], j: usize, figure: u8) -> Sums16 {
        let t = packed::turned16(block, 2 * j);
        let f = u16::from(figure);
        Sums16 {
            unlike: self.unlike + u16::from(t != f * 256),
            under: self.under + u16::from(t == 0) * f,
        }
    }

    fn told(self) -> Compared {
        Compared {
            unlike: self.unlike,
            under: self.under,
        }
    }
}

#[derive(Clone, Copy)]
pub struct Sums32 {
    unlike: u32,
    under: u32,
}

impl Sums for Sums32 {
    ghost order = { 5 };

    ghost unlike = { λ s. s.unlike };

    ghost under = { λ s. s.under };

    fn none() -> Sums32 {
        Sums32 {
            unlike: 0,
            under: 0,
        }
    }

    fn with(self, block: &[u8], j: usize, figure: u8) -> Sums32 {
        let t = packed::turned32(block, 4 * j);
        Sums32 {
            unlike: self.unlike + unlike32(t, figure),
            under: self.under + u32::from(t == 0) * u32::from(figure),
        }
    }

    fn told(self) -> Compared {
        Compared {
            unlike: self.unlike as u16,
            under: self.under as u16,
        }
    }
}
