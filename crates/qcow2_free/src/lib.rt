// The search for a free cluster. A refcount block is looked up once and searched without a division: 512 bytes are passed over at a time, and only
// where one of their counts is 0 it is looked for by 32 bytes and then one by one (`packed_search`).
#![tactic(auto)]

ghost use Rattle.std.specs.Prelude.{◌≡◌, ◌+◌, ◌-◌, ◌*◌, ◌%◌, ◌^◌, ◌≤◌, ◌<◌};
ghost use Rattle.choice.specs.Pick.{first};
ghost use Rattle.qcow2_spec.specs.Header.{most_length};
ghost use Rattle.qcow2_spec.specs.Counts.{free_at, free_from};
ghost use Rattle.qcow2_spec.specs.Opened.{Opened};
ghost use Rattle.qcow2_counts.specs.Blocks.{per_of};
ghost use Rattle.qcow2_free.specs.Zeros.{zero_in};

use qcow2_spec::Geometry;

// The lowest count from index j on, a multiple of 8, that is 0, in refcount block b's counts below end; end where there is none.
fn free_in(image: &[u8], g: Geometry, b: usize, j: usize, end: usize) -> usize
    requires { (Opened g image.now × (b < g.blocks)) × (((j ≤ end) × (j % 8 ≡ 0)) × (2 ^ g.order * end ≤ 8 * 2 ^ g.bits)) }
    ensures { (result ≡ first (zero_in image.now b) j (end - j)) × ((j ≤ result) × (result ≤ end)) }
{
    let at = qcow2_counts::block_at(image, g, b);
    let c = qcow2_counts::bytes_of(g.bits);
    let k = packed_search::far_any(&image[at..at + c], g.order, j, end);
    if k < end {
        return packed_search::near_at(image, at, c, g.order, k, end);
    }
    k
}

// The lowest free cluster from start on, a multiple of 8; the number of clusters where there is none. The counts of the last `left` clusters stand in
// block b and later; a block after the first is searched from its first count on, so that nothing is divided in the loop.
fn free_on(image: &[u8], g: Geometry, start: usize) -> usize
    requires { Opened g image.now × ((start ≤ g.clusters) × (start < g.clusters → start % 8 ≡ 0)) }
    ensures { result ≡ first (free_at image.now) start (g.clusters - start) }
{
    let per = qcow2_counts::per_block(g.bits, g.order);
    let mut b = qcow2_counts::block_of(start, g.bits, g.order);
    let mut j = qcow2_counts::index_of(start, g.bits, g.order);
    let mut left = g.clusters - (start - j);
    // A `while`: block, index and what is left go on together.
    while j < left {
        let end = per.min(left);
        let f = free_in(image, g, b, j, end);
        if f < end {
            return g.clusters - left + f;
        }
        left -= end;
        b += 1;
        j = 0;
    }
    g.clusters
}

// The next multiple of 8 from i on, or n if that is less.
fn eighth(i: usize, n: usize) -> usize
    requires { (i ≤ n) × (n ≤ most_length) }
    ensures { ((i ≤ result) × (result ≤ n)) × ((result ≤ i + (8 - i % 8) % 8) × (result < n → result % 8 ≡ 0)) }
{
    (i + (8 - i % 8) % 8).min(n)
}

// The lowest free cluster of those from start on and below up, whose counts stand in one block; up where there is none.
fn free_below(image: &[u8], g: Geometry, start: usize, up: usize) -> usize
    requires { (Opened g image.now × (start < g.clusters)) × ((start ≤ up) × (start % per_of g + (up - start) ≤ per_of g)) }
    ensures { result ≡ first (free_at image.now) start (up - start) }
{
    if start == up {
        return up;
    }
    let at = qcow2_counts::block_at(image, g, qcow2_counts::block_of(start, g.bits, g.order));
    let j = qcow2_counts::index_of(start, g.bits, g.order);
    let c = qcow2_counts::bytes_of(g.bits);
    start + (packed_search::near_at(image, at, c, g.order, j, j + (up - start)) - j)
}

// The lowest cluster from start on with stored count 0; the number of clusters, or start if that is more, where there is none.
pub fn free_from(image: &[u8], g: Geometry, start: usize) -> usize
    requires { Opened g image.now }
    ensures { result ≡ free_from image.now start }
{
    if g.clusters <= start {
        return start;
    }
    let up = eighth(start, g.clusters);
    let f = free_below(image, g, start, up);
    if f < up {
        return f;
    }
    free_on(image, g, up)
}
