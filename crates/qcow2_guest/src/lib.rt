// From a guest offset to its place in the image, for an image whose header was accepted.
#![tactic(auto)]

ghost use Rattle.std.specs.Prelude.{◌≡◌, ◌+◌, ◌-◌, ◌/◌, ◌%◌, ◌^◌, ◌<◌, ◌≤◌, min, length};
ghost use Rattle.qcow2_spec.specs.Header.{most_bits, cluster_size, per_table, root_size};
ghost use Rattle.qcow2_spec.specs.Guest.{reach, l1_entry, l2_way, way, located, translated};
ghost use Rattle.qcow2_spec.specs.Opened.{Opened, Active};
ghost use Rattle.qcow2_guest.specs.Rows.{row_left};

use qcow2_spec::refusal::{Cause, Refusal};
use qcow2_spec::{Found, Geometry, Way};

// How much of what is left, from x on, comes before the next multiple of a power of two.
pub fn piece(x: u64, left: usize, bits: u32) -> usize
    requires { bits ≤ most_bits }
    ensures { result ≡ min (2 ^ bits - x % 2 ^ bits) left }
{
    let room = power::power(bits) - power::rest(x, bits);
    (room as usize).min(left)
}

// How many of the bytes that are left have the L1 entry of x.
pub fn row_left(x: u64, left: usize, bits: u32) -> usize
    requires { (3 ≤ bits) × (bits ≤ most_bits) }
    ensures { result ≡ min (row_left (2 ^ bits) (2 ^ (bits - 3)) x) left }
{
    let entries = power::power(bits - 3) - power::rest(power::quotient(x, bits), bits - 3);
    let room = entries * power::power(bits) - power::rest(x, bits);
    (room as usize).min(left)
}

// The L1 entry of a guest cluster.
pub fn l1_entry(image: &[u8], g: Geometry, guest: u64) -> u64
    requires { (Opened g image.now) × (guest / per_table image.now < root_size image.now g.root) }
    ensures { result ≡ l1_entry image.now g.root guest }
{
    let i = power::quotient(guest, g.bits - 3) as usize;
    endian::load64(image, g.l1at + 8 * i)
}

// The way that ends in the L2 table at t, which is handed on as a part of the image.
fn l2_way(image: &[u8], g: Geometry, t: usize, guest: u64) -> Result<Way, Refusal>
    requires { (Opened g image.now) × (t + cluster_size image.now ≤ length image.now) }
    ensures { result ≡ l2_way image.now t (guest % per_table image.now) }
{
    let n = image.len() as u64;
    let c = power::power(g.bits) as usize;
    let i = power::rest(guest, g.bits - 3) as usize;
    qcow2_found::way_in(&image[t..t + c], i, t, g.version, n, g.bits)
}

// The way to a guest cluster.
pub fn way_to(image: &[u8], g: Geometry, guest: u64) -> Result<Way, Refusal>
    requires { (Opened g image.now) × (guest / per_table image.now < root_size image.now g.root) }
    ensures { result ≡ way image.now g.root guest }
{
    let e = l1_entry(image, g, guest);
    if qcow2_entry::good_l1(e, image.len() as u64, g.bits) {
        let t = qcow2_entry::place_of(e);
        if t == 0 {
            return Ok(Way::NoTable);
        }
        return l2_way(image, g, t as usize, guest);
    }
    Err(Cause::Entry.into())
}

// Where byte x of the disk lies.
pub fn locate(image: &[u8], g: Geometry, x: u64) -> Result<Found, Refusal>
    requires { (Opened g image.now) × (x < reach image.now g.root) }
    ensures { result ≡ located image.now g.root x }
{
    let o = power::rest(x, g.bits);
    let w = way_to(image, g, power::quotient(x, g.bits))?;
    match w {
        Way::NoTable => Ok(Found::Absent),
        Way::Slot(_, e) => Ok(qcow2_found::gives(e, o)),
    }
}

// The translation of guest offset x.
pub fn translated(image: &[u8], g: Geometry, x: u64) -> Result<Found, Refusal>
    requires { Active g image.now }
    ensures { result ≡ translated image.now x }
{
    if g.size <= x {
        return Err(Cause::Range.into());
    }
    locate(image, g, x)
}
