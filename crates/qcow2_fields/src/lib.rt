// The fields of the header: what is not supported, and the geometry that they give.
#![tactic(auto)]

ghost use Rattle.std.specs.Prelude.{◌≡◌, ◌||◌, ◌*◌, ◌/◌, ◌^◌, ◌≤◌, eqb, length};
ghost use Rattle.choice.specs.Pick.{ceil_div};
ghost use Rattle.qcow2_spec.specs.Header.{most_bits, most_length, count_order, unsupported};
ghost use Rattle.qcow2_fields.specs.Fields.{other_form, features, Supported, Read};

use qcow2_spec::Geometry;

pub fn is_version(v: u32) -> bool
    ensures { result ≡ eqb v 2 || eqb v 3 }
{
    if v == 2 {
        return true;
    }
    v == 3
}

// Whether a version 3 header has counts that are too wide, or another length.
fn has_other_form(image: &[u8]) -> bool
    requires { 512 ≤ length image.now }
    ensures { result ≡ other_form image.now }
{
    if endian::load32(image, 4) != 3 {
        return false;
    }
    if qcow2_limits::too_wide(endian::load32(image, 96)) {
        return true;
    }
    endian::load32(image, 100) != 104
}

// Whether anything is there that is not supported.
pub fn has_extras(image: &[u8]) -> bool
    requires { 512 ≤ length image.now }
    ensures { result ≡ unsupported image.now }
{
    if endian::load32(image, 32) != 0 {
        return true;
    }
    if qcow2_limits::too_many(endian::load32(image, 60)) {
        return true;
    }
    has_other_form(image)
}

// Whether a version 3 header has an incompatible feature.
pub fn has_features(image: &[u8]) -> bool
    requires { 512 ≤ length image.now }
    ensures { result ≡ features image.now }
{
    if endian::load32(image, 4) != 3 {
        return false;
    }
    endian::load64(image, 72) != 0
}

// The width of a count as a power of two.
pub fn order_of(image: &[u8]) -> u32
    requires { 512 ≤ length image.now }
    ensures { result ≡ count_order image.now }
{
    if endian::load32(image, 4) != 3 {
        return 4;
    }
    endian::load32(image, 96)
}

// The refcount blocks that an image of n bytes needs.
pub fn block_count(n: u64, bits: u32, order: u32) -> u64
    requires { ((order ≤ bits) × (bits ≤ most_bits)) × (n ≤ most_length) }
    ensures { result ≡ ceil_div (n / 2 ^ bits) (2 ^ bits * 8 / 2 ^ order) }
{
    let log = bits + 3 - order;
    let per = power::power(log);
    power::quotient(power::quotient(n, bits) + (per - 1), log)
}

// What the header gives for the active L1 table.
pub fn gather(image: &[u8]) -> Geometry
    requires { Supported image.now }
    ensures { Read result image.now }
{
    let n = image.len() as u64;
    let bits = endian::load32(image, 20);
    let order = order_of(image);
    Geometry {
        version: endian::load32(image, 4),
        bits,
        order,
        clusters: power::quotient(n, bits) as usize,
        root: 0,
        size: endian::load64(image, 24),
        l1size: endian::load32(image, 36) as usize,
        l1at: endian::load64(image, 40) as usize,
        tableat: endian::load64(image, 48) as usize,
        tableclusters: endian::load32(image, 56) as usize,
        blocks: block_count(n, bits, order) as usize,
        snapshots: endian::load32(image, 60) as usize,
        snapshotsat: endian::load64(image, 64) as usize,
        backed: endian::load64(image, 8) != 0,
    }
}
