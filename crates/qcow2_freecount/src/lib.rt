// The number of free clusters: counts of 0 in the refcount blocks.
#![tactic(auto)]

ghost use Rattle.std.specs.Prelude.{◌≡◌, ◌*◌, ◌^◌, ◌≤◌, ◌<◌, length};
ghost use Rattle.choice.specs.Pick.{count};
ghost use Rattle.packed.specs.Packed.{zero_at};
ghost use Rattle.qcow2_spec.specs.Header.{most_length, most_order, per_block};
ghost use Rattle.qcow2_spec.specs.Counts.{free, free_at};
ghost use Rattle.qcow2_spec.specs.Opened.{Opened};

use qcow2_spec::Geometry;

// How many of the first m counts of 16 bits of a refcount block are 0. It is a loop of its own, since the compiler makes no vector code of one over
// `widths::load`, also where the order is a constant 4.
fn zeros_in(block: &[u8], m: usize) -> usize
    requires { 2 * m ≤ length block.now }
    ensures { result ≡ count (zero_at 4 block.now) 0 m }
{
    let mut n = 0;
    for j in 0..m {
        n += usize::from(endian::load16(block, 2 * j) == 0);
    }
    n
}

// How many of the first m counts of 2 to the power order bits are 0.
fn zeros_packed(block: &[u8], order: u32, m: usize) -> usize
    requires { ((order ≤ most_order) × (2 ^ order * m ≤ 8 * length block.now)) × (length block.now ≤ most_length) }
    ensures { result ≡ count (zero_at order block.now) 0 m }
{
    let width = power::power(order) as usize;
    let mut n = 0;
    for j in 0..m {
        n += usize::from(widths::load(block, order, width * j) == 0);
    }
    n
}

// The same, where 16 bits are the common case.
fn zeros_any(block: &[u8], order: u32, m: usize) -> usize
    requires { ((order ≤ most_order) × (2 ^ order * m ≤ 8 * length block.now)) × (length block.now ≤ most_length) }
    ensures { result ≡ count (zero_at order block.now) 0 m }
{
    if order == 4 {
        return zeros_in(block, m);
    }
    zeros_packed(block, order, m)
}

// How many of the first m clusters of refcount block b are free.
fn free_in(image: &[u8], b: usize, m: usize, g: Geometry) -> usize
    requires { Opened g image.now × ((b < g.blocks) × (m ≤ per_block image.now)) }
    ensures { (result ≡ count (free_at image.now) (b * per_block image.now) m) × (result ≤ m) }
{
    let at = qcow2_counts::block_at(image, g, b);
    let c = power::power(g.bits) as usize;
    zeros_any(&image[at..at + c], g.order, m)
}

// The clusters of an accepted image whose stored count is 0.
pub fn free_clusters(image: &[u8], g: Geometry) -> usize
    requires { Opened g image.now }
    ensures { result ≡ free image.now }
{
    let per = qcow2_counts::per_block(g.bits, g.order);
    let n = g.clusters;
    let mut found = 0;
    let mut b = 0;
    let mut k = 0;
    // A `while`: block and cluster go on together, and the last block may be short.
    while k < n {
        let m = per.min(n - k);
        found += free_in(image, b, m, g);
        k += m;
        b += 1;
    }
    found
}
