// Zeros and bytes that are stored in a part of a slice.
#![tactic(auto)]

ghost use Rattle.std.specs.Prelude.{◌≡◌, ◌+◌, ◌≤◌, length, take, replicate};
ghost use Rattle.endian.specs.Big.{splice};

// Stores n zeros from an index on.
pub fn zeros(s: &mut [u8], at: usize, n: usize)
    requires { at + n ≤ length s.old }
    ensures { s.new ≡ splice s.old at (replicate n 0) }
{
    s[at..at + n].fill(0);
}

// Stores the first len bytes of src from an index on.
pub fn bytes(s: &mut [u8], at: usize, src: &[u8], len: usize)
    requires { (at + len ≤ length s.old) × (len ≤ length src.now) }
    ensures { s.new ≡ splice s.old at (take len src.now) }
{
    s[at..at + len].copy_from_slice(&src[..len]);
}
