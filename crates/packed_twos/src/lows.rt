// The low bytes of figures.
ghost use Rattle.std.specs.Prelude.{◌≡◌, true, ◌≤◌, length};
ghost use Rattle.packed_twos.specs.Twos.{many, Narrow};

// Stores the figures' low bytes, and tells whether the figures are these bytes and none is above 1. The bits of all figures are put together:
// a turned figure of 0 or 1 is 0 or 256.
pub fn narrowed(figures: &[u8], bytes: &mut [u8]) -> bool
    requires { (many figures.now ≤ 4096) × (many figures.now ≤ length bytes.old) }
    ensures { (length bytes.new ≡ length bytes.old) × (result ≡ true → Narrow figures.now bytes.new) }
{
    let m = figures.len() / 2;
    let mut seen: u16 = 0;
    for j in 0..m {
        let t = packed::turned16(figures, 2 * j);
        bytes[j] = (t / 256) as u8;
        seen |= t;
    }
    seen == 0 || seen == 256
}
