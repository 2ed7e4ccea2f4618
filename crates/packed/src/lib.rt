// Numbers of one width side by side: their bytes as the compiler loads many at a time. The crates above compare them by loops without an early exit,
// which become vector code, with one promise for every width.
#![tactic(auto)]

ghost use Rattle.std.specs.Prelude.{◌≡◌, ◌+◌, ◌≤◌, length};
ghost use Rattle.packed.specs.Lanes.{lanes, bytes_at};

// Numbers against figures: how many differ, and how many are below the figure.
#[derive(Clone, Copy)]
pub struct Compared {
    pub unlike: u16,
    pub under: u16,
}

// Two bytes with the first lowest. In this order the compiler joins them to one load before it looks at the loop, and then takes many numbers at a time.
pub fn turned16(b: &[u8], at: usize) -> u16
    requires { at + 2 ≤ length b.now }
    ensures { result ≡ lanes 2 (bytes_at b.now at) }
{
    u16::from(b[at]) + u16::from(b[at + 1]) * 256
}

// As one sum: the loads of two halves are not joined where numbers of 64 bits are compared.
pub fn turned32(b: &[u8], at: usize) -> u32
    requires { at + 4 ≤ length b.now }
    ensures { result ≡ lanes 4 (bytes_at b.now at) }
{
    u32::from(b[at])
        + u32::from(b[at + 1]) * 256
        + u32::from(b[at + 2]) * 65536
        + u32::from(b[at + 3]) * 16777216
}
