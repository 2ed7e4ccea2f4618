// The limits of the header's numbers, each a constant beside the test that uses it.
#![tactic(auto)]

ghost use Rattle.std.specs.Prelude.{◌≡◌, not, ◌||◌, ◌%◌, ◌≤◌, eqb, ltb};
ghost use Rattle.qcow2_spec.specs.Header.{least_length, least_bits, most_bits, most_order, most_snapshots, most_name, sector};
ghost use Rattle.qcow2_limits.specs.Limits.{Known, odd_length, oversize as Oversize};

use qcow2_spec::Geometry;

// Bytes of the shortest and of the longest image.
const LEAST_LENGTH: usize = 512;

const MOST_LENGTH: u64 = 1073741824;

// cluster_bits.
const LEAST_BITS: u32 = 9;

const MOST_BITS: u32 = 21;

// refcount_order.
const MOST_ORDER: u32 = 6;

// nb_snapshots.
const MOST_SNAPSHOTS: u32 = 64;

// backing_file_size.
const MOST_NAME: u32 = 1023;

// Bytes of the largest disk, and entries of the longest L1 table.
const MOST_SIZE: u64 = 1099511627776;

const MOST_L1: usize = 65536;

// The bytes of a sector.
const SECTOR: u64 = 512;

// Whether an image of n bytes has no room for a header.
pub fn too_short(n: usize) -> bool
    ensures { result ≡ ltb n least_length }
{
    n < LEAST_LENGTH
}

// Whether clusters are too small or too large.
pub fn wrong_bits(bits: u32) -> bool
    ensures { result ≡ ltb bits least_bits || ltb most_bits bits }
{
    if bits < LEAST_BITS {
        return true;
    }
    bits > MOST_BITS
}

// Whether counts are too wide.
pub fn too_wide(order: u32) -> bool
    ensures { result ≡ ltb most_order order }
{
    order > MOST_ORDER
}

// Whether there are too many snapshots.
pub fn too_many(snapshots: u32) -> bool
    ensures { result ≡ ltb most_snapshots snapshots }
{
    snapshots > MOST_SNAPSHOTS
}

// Whether a backing file's name is empty or too long.
pub fn wrong_name_length(len: u32) -> bool
    ensures { result ≡ eqb len 0 || ltb most_name len }
{
    if len == 0 {
        return true;
    }
    len > MOST_NAME
}

// Whether the image is no whole number of clusters, or too long.
pub fn odd_length(image: &[u8]) -> bool
    requires { Known image.now }
    ensures { result ≡ odd_length image.now }
{
    let n = image.len() as u64;
    if power::rest(n, endian::load32(image, 20)) != 0 {
        return true;
    }
    n > MOST_LENGTH
}

// Whether the disk is too large, or larger than the L1 table reaches.
pub fn oversize(g: Geometry) -> bool
    requires { g.bits ≤ most_bits }
    ensures { result ≡ Oversize g }
{
    if g.size > MOST_SIZE {
        return true;
    }
    if g.l1size > MOST_L1 {
        return true;
    }
    let c = power::power(g.bits);
    g.l1size as u64 * (c / 8) * c < g.size
}

// Whether a disk has a part of a sector.
pub fn part_sector(size: u64) -> bool
    ensures { result ≡ not (eqb (size % sector) 0) }
{
    size % SECTOR != 0
}
