// A scratch of figures, and stored counts against them.
#![tactic(auto)]

ghost use Rattle.std.specs.Prelude.{◌≡◌, length, replicate};

pub mod against;

// What the stored counts show so far: the lowest short cluster, or the number of clusters, and how many leak.
#[derive(Clone, Copy)]
pub struct Counted {
    pub low: usize,
    pub over: usize,
}

// Clears the scratch.
pub fn clear(scratch: &mut [u8])
    ensures { scratch.new ≡ replicate (length scratch.old) 0 }
{
    scratch.fill(0);
}
