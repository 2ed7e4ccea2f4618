// Where the counts stand: refcount blocks by the refcount table, and places of counts in them. The table is read as it stands, so that a repair
// can use it between its stores.
#![tactic(auto)]

ghost use Rattle.std.specs.Prelude.{◌≡◌, ◌+◌, ◌-◌, ◌*◌, ◌/◌, ◌%◌, ◌^◌, ◌≤◌, ◌<◌, length};
ghost use Rattle.endian.specs.Big.{be64};
ghost use Rattle.widths.specs.Width.{Inside};
ghost use Rattle.qcow2_spec.specs.Header.{most_bits, most_length, most_order, block_at};
ghost use Rattle.qcow2_spec.specs.Counts.{count_at};
ghost use Rattle.qcow2_spec.specs.Opened.{Opened};
ghost use Rattle.qcow2_counts.specs.Blocks.{Named, Reach, Row, per_of, count_place};

use qcow2_spec::Geometry;

// 2 to the power bits: the bytes of a cluster.
pub fn bytes_of(bits: u32) -> usize
    requires { bits ≤ most_bits }
    ensures { (result ≡ 2 ^ bits) × ((1 ≤ result) × (result ≤ 2 ^ most_bits)) }
{
    power::power(bits) as usize
}

// The counts of a refcount block, as a power of two.
pub fn log_of(bits: u32, order: u32) -> u32
    requires { (order ≤ bits) × (bits ≤ most_bits) }
    ensures { (result ≡ bits + 3 - order) × (result ≤ 31) }
{
    bits + 3 - order
}

// The counts of 2 to the power order bits in a refcount block.
pub fn per_block(bits: u32, order: u32) -> usize
    requires { (order ≤ bits) × (bits ≤ most_bits) }
    ensures { result ≡ 2 ^ (bits + 3 - order) }
{
    power::power(bits + 3 - order) as usize
}

// The refcount block of cluster k.
pub fn block_of(k: usize, bits: u32, order: u32) -> usize
    requires { (order ≤ bits) × (bits ≤ most_bits) }
    ensures { result ≡ k / 2 ^ (bits + 3 - order) }
{
    power::quotient(k as u64, log_of(bits, order)) as usize
}

// The index of its count there.
pub fn index_of(k: usize, bits: u32, order: u32) -> usize
    requires { (order ≤ bits) × (bits ≤ most_bits) }
    ensures { (result ≡ k % 2 ^ (bits + 3 - order)) × (result < 2 ^ (bits + 3 - order)) }
{
    power::rest(k as u64, log_of(bits, order)) as usize
}

// Where count i of 2 to the power order bits stands in the block at a place: its lowest bit.
fn bit_of(at: usize, i: usize, order: u32) -> usize
    requires { (order ≤ most_order) × ((at ≤ most_length) × (i ≤ 8 * most_length)) }
    ensures { result ≡ 8 * at + 2 ^ order * i }
{
    8 * at + power::power(order) as usize * i
}

// The place of refcount block b, by the refcount table as it stands. The bound, which it never reaches, keeps the compiler from taking its load
// apart into bytes and sums.
pub fn block_place(image: &[u8], g: Geometry, b: usize) -> usize
    requires { Named g image.now b }
    ensures { (result ≡ be64 image.now (g.tableat + 8 * b)) × (result + 2 ^ g.bits ≤ length image.now) }
{
    let at = endian::load64(image, g.tableat + 8 * b) as usize;
    at.min(image.len())
}

// The same in an accepted image. Two promises, not two bodies: a caller that knows Opened need not know of Named.
pub fn block_at(image: &[u8], g: Geometry, b: usize) -> usize
    requires { Opened g image.now × (b < g.blocks) }
    ensures { (result ≡ block_at image.now b) × (result + 2 ^ g.bits ≤ length image.now) }
{
    block_place(image, g, b)
}

// The place of cluster k's count, by the refcount table as it stands: its lowest bit's. All later counts of its block are in the image too.
pub fn count_place(image: &[u8], g: Geometry, k: usize) -> usize
    requires { Reach g image.now k }
    ensures { (result ≡ count_place g image.now k) × Row g.order (length image.now) result (per_of g - k % per_of g) }
{
    let at = block_place(image, g, block_of(k, g.bits, g.order));
    bit_of(at, index_of(k, g.bits, g.order), g.order)
}

// The same in an accepted image, as block_at.
pub fn count_at(image: &[u8], g: Geometry, k: usize) -> usize
    requires { Opened g image.now × (k < g.clusters) }
    ensures { (result ≡ count_at image.now k) × Inside g.order (length image.now) result }
{
    count_place(image, g, k)
}

// How many clusters there are from i on whose counts stand in one block.
pub fn run_of(g: Geometry, i: usize) -> usize
    requires { ((g.order ≤ g.bits) × (g.bits ≤ most_bits)) × (i < g.clusters) }
    ensures { ((1 ≤ result) × (i + result ≤ g.clusters)) × (i % per_of g + result ≤ per_of g) }
{
    let per = per_block(g.bits, g.order);
    let left = per - index_of(i, g.bits, g.order);
    left.min(g.clusters - i)
}
