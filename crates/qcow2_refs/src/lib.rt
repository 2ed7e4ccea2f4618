// Visiting what one L1 table of an accepted image refers to, and how far its entries pass.
#![tactic(auto)]

ghost use Rattle.std.specs.Prelude.{◌≡◌, ◌<◌};
ghost use Rattle.qcow2_spec.specs.Opened.{Opened};
ghost use Rattle.qcow2_refs.specs.Walks.{row_at};

use qcow2_spec::Geometry;

pub mod walk;

// The state of a walk over an L1 table: the next entry, how many at the front pass with all below them, and how many pass at the front of
// the table below the one after these.
#[derive(Clone, Copy)]
pub struct Progress {
    pub row: usize,
    pub good: usize,
    pub below: usize,
}

// L1 entry i.
pub fn row_at(image: &[u8], i: usize, g: Geometry) -> u64
    requires { Opened g image.now × (i < g.l1size) }
    ensures { result ≡ row_at image.now g.root i }
{
    endian::load64(image, g.l1at + 8 * i)
}
