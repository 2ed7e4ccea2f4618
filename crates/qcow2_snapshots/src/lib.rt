// The snapshot table: its number, and the L1 tables of the snapshots.
#![tactic(auto)]

ghost use Rattle.std.specs.Prelude.{◌≡◌, suc, ◌^◌, ◌≤◌, ◌<◌, ltb, length};
ghost use Rattle.choice.specs.Pick.{first};
ghost use Rattle.qcow2_spec.specs.Header.{most_bits, most_length, cluster_size, snapshots as shots, snapshots_at, snapshot_at, bad_snapshot, snapshot_number, roots, root_size};
ghost use Rattle.qcow2_spec.specs.Causes.{answer};
ghost use Rattle.qcow2_spec.specs.Opened.{Opened, Active};

use qcow2_spec::Geometry;
use qcow2_spec::refusal::{Cause, Refusal};

mod entry;

// Whether some entry is bad. Each is looked at where the one before ends, so that the first bad one ends the walk.
fn some_bad(image: &[u8], count: usize, at: usize, bits: u32) -> bool
    requires { ((length image.now ≤ most_length) × (bits ≤ most_bits)) × ((cluster_size image.now ≡ 2 ^ bits) × (at ≡ snapshots_at image.now)) }
    ensures { result ≡ ltb (first (bad_snapshot image.now) 0 count) count }
{
    let mut p = at;
    for _k in 0..count {
        if entry::bad_entry(image, p, bits) {
            return true;
        }
        p = entry::entry_end(image, p);
    }
    false
}

// 21: the snapshot table, of any bytes whose header gives these numbers.
pub fn check_snapshots(image: &[u8], count: usize, at: usize, bits: u32) -> Result<(), Refusal>
    requires { ((length image.now ≤ most_length) × (bits ≤ most_bits)) × ((cluster_size image.now ≡ 2 ^ bits) × ((count ≡ shots image.now) × (at ≡ snapshots_at image.now))) }
    ensures { result ≡ answer (snapshot_number image.now) }
{
    if count == 0 {
        return Ok(());
    }
    if power::rest(at as u64, bits) != 0 {
        return Err(Cause::Snapshots.into());
    }
    if some_bad(image, count, at, bits) {
        return Err(Cause::Snapshots.into());
    }
    Ok(())
}

// The place of an entry, or after the last one.
pub fn place_of(image: &[u8], g: Geometry, k: usize) -> usize
    requires { Opened g image.now × (k ≤ shots image.now) }
    ensures { result ≡ snapshot_at image.now k }
{
    let mut p = g.snapshotsat;
    for _i in 0..k {
        p = entry::entry_end(image, p);
    }
    p
}

// The place after snapshot k's entry, which stands at p.
pub fn next_place(image: &[u8], g: Geometry, k: usize, p: usize) -> usize
    requires { (Opened g image.now × (k < shots image.now)) × (p ≡ snapshot_at image.now k) }
    ensures { result ≡ snapshot_at image.now (suc k) }
{
    entry::entry_end(image, p)
}

// The entries of snapshot k's L1 table; its own entry stands at p.
pub fn size_at(image: &[u8], g: Geometry, k: usize, p: usize) -> usize
    requires { (Opened g image.now × (k < shots image.now)) × (p ≡ snapshot_at image.now k) }
    ensures { result ≡ root_size image.now (suc k) }
{
    endian::load32(image, p + 8) as usize
}

// The place after the snapshot table; where there is no snapshot, the place that the header names, which may be any number.
pub fn table_end(image: &[u8], g: Geometry) -> usize
    requires { Opened g image.now }
    ensures { result ≡ snapshot_at image.now (shots image.now) }
{
    place_of(image, g, g.snapshots)
}

// What the image gives for snapshot k's L1 table.
pub fn snapshot_root(image: &[u8], g: Geometry, k: usize) -> Geometry
    requires { Opened g image.now × (k < shots image.now) }
    ensures { Opened result image.now × (result.root ≡ suc k) }
{
    let at = place_of(image, g, k);
    let l1size = endian::load32(image, at + 8) as usize;
    let c = power::power(g.bits);
    Geometry {
        root: k + 1,
        size: l1size as u64 * (c / 8) * c,
        l1size,
        l1at: endian::load64(image, at) as usize,
        ..g
    }
}

// What the image gives for L1 table t, from what it gives for the active one.
pub fn root_at(image: &[u8], g: Geometry, t: usize) -> Geometry
    requires { Active g image.now × (t < roots image.now) }
    ensures { Opened result image.now × (result.root ≡ t) }
{
    if t == 0 {
        return g;
    }
    snapshot_root(image, g, t - 1)
}
