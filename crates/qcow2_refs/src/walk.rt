// Visiting what the L1 and L2 tables refer to: an L2 table by one kind, and what stands below it, data, by another. A bad entry refers to nothing,
// and the walk goes on past it.
ghost use Rattle.std.specs.Prelude.{◌≡◌, true, ◌&&◌, ◌≢◌, ◌+◌, ◌*◌, ◌^◌, ◌≤◌, ◌<◌, eqb, length, if◌then◌else◌};
ghost use Rattle.tally.specs.States.{entry_visited, tree_visited};
ghost use Rattle.qcow2_spec.specs.Header.{per_table};
ghost use Rattle.qcow2_spec.specs.Entries.{place, good_l1};
ghost use Rattle.qcow2_spec.specs.References.{l2_refs, table_refs, l1_refs, l1_entries};
ghost use Rattle.qcow2_spec.specs.Opened.{Opened};
ghost use Rattle.qcow2_groups.specs.Walks.{Room, passes, Passed, whole};
ghost use Rattle.qcow2_refs.specs.Walks.{Found, table_front, row_front, walked, row_at};

use crate::Progress;
use qcow2_spec::Geometry;

// How many of j + 1 entries pass at the front, where r of j were, and entry j is good or not.
fn front(r: usize, j: usize, good: bool) -> usize
    requires { j < 18446744073709551615 }
    ensures { result ≡ (if eqb r j && good then j + 1 else r) }
{
    if good {
        if r == j {
            return j + 1;
        }
    }
    r
}

// Visits what the entries of an L2 table refer to, bad ones too, and says how many at its front pass.
fn walk_table(table: &[u8], scratch: &mut [u8], version: u32, bits: u32, n: u64, leaf: u16) -> usize
    requires { Room scratch.old bits n × (leaf < 512) }
    ensures { Passed leaf (l2_refs version (2 ^ bits) n) (passes leaf version (2 ^ bits) n) (whole table.now) scratch.old scratch.new result }
{
    let per = table.len() / 8;
    let good = qcow2_groups::walk_good(table, scratch, version, bits, n, leaf);
    let mut r = good;
    for j in good..per {
        let e = endian::load64(table, 8 * j);
        r = front(
            r,
            j,
            qcow2_groups::walk_any(scratch, e, version, bits, n, leaf),
        );
    }
    r
}

// Visits an L2 table at a place of the image, and what its entries refer to.
fn walk_below(image: &[u8], scratch: &mut [u8], p: u64, g: Geometry, table: u16, leaf: u16) -> usize
    requires { (Opened g image.now × ((length scratch.old ≡ 2 * g.clusters) × (p + 2 ^ g.bits ≤ length image.now))) × ((table < 512) × (leaf < 512)) }
    ensures { (result ≡ table_front leaf image.now p) × (scratch.new ≡ entry_visited table leaf (table_refs image.now p) scratch.old) }
{
    let at = p as usize;
    let c = power::power(g.bits) as usize;
    visits::visit(scratch, power::quotient(p, g.bits) as usize, table);
    walk_table(
        &image[at..at + c],
        scratch,
        g.version,
        g.bits,
        image.len() as u64,
        leaf,
    )
}

// Visits an L2 table by its L1 entry, which is good and has a place p. Where references are counted alone a common one does not pass.
fn walk_placed(
    image: &[u8],
    scratch: &mut [u8],
    e: u64,
    g: Geometry,
    table: u16,
    leaf: u16,
) -> usize
    requires { (Opened g image.now × (length scratch.old ≡ 2 * g.clusters)) × (((table < 512) × (leaf < 512)) × ((good_l1 (2 ^ g.bits) (length image.now) e ≡ true) × (place e ≢ 0))) }
    ensures { (result ≡ row_front leaf image.now e) × (scratch.new ≡ entry_visited table leaf (l1_refs image.now e) scratch.old) }
{
    let k = walk_below(image, scratch, qcow2_entry::place_of(e), g, table, leaf);
    if leaf == 0 {
        if qcow2_entry::is_common(e) {
            return 0;
        }
    }
    k
}

// Visits what an L1 entry and the table below it refer to, and says how many entries at the table's front pass: none where the L1 entry does not.
fn walk_row(image: &[u8], scratch: &mut [u8], e: u64, g: Geometry, table: u16, leaf: u16) -> usize
    requires { (Opened g image.now × (length scratch.old ≡ 2 * g.clusters)) × ((table < 512) × (leaf < 512)) }
    ensures { (result ≡ row_front leaf image.now e) × (scratch.new ≡ entry_visited table leaf (l1_refs image.now e) scratch.old) }
{
    if qcow2_entry::good_l1(e, image.len() as u64, g.bits) {
        if qcow2_entry::place_of(e) == 0 {
            return (power::power(g.bits) / 8) as usize;
        }
        return walk_placed(image, scratch, e, g, table, leaf);
    }
    0
}

// The walk once an L1 entry more is passed, of which k of per entries below pass at the front.
fn passed(w: Progress, k: usize, per: usize) -> Progress
    requires { w.row ≤ 4294967296 }
    ensures { result ≡ walked per w k }
{
    let row = w.row + 1;
    if w.good < w.row {
        return Progress { row, ..w };
    }
    Progress {
        row,
        good: front(w.good, w.row, k == per),
        below: k,
    }
}

// One L1 entry more.
fn next_row(
    w: Progress,
    image: &[u8],
    scratch: &mut [u8],
    g: Geometry,
    table: u16,
    leaf: u16,
) -> Progress
    requires { (Opened g image.now × ((length scratch.old ≡ 2 * g.clusters) × (w.row < g.l1size))) × ((table < 512) × (leaf < 512)) }
    ensures { (result ≡ walked (per_table image.now) w (row_front leaf image.now (row_at image.now g.root w.row))) × (scratch.new ≡ entry_visited table leaf (l1_refs image.now (row_at image.now g.root w.row)) scratch.old) }
{
    let e = crate::row_at(image, w.row, g);
    let k = walk_row(image, scratch, e, g, table, leaf);
    passed(w, k, (power::power(g.bits) / 8) as usize)
}

// All entries of an L1 table.
pub fn walk_rows(image: &[u8], scratch: &mut [u8], g: Geometry, table: u16, leaf: u16) -> Progress
    requires { (Opened g image.now × (length scratch.old ≡ 2 * g.clusters)) × ((table < 512) × (leaf < 512)) }
    ensures { Found leaf image.now g.root g.l1size result.good result.below × (scratch.new ≡ tree_visited (l1_refs image.now) table leaf (l1_entries image.now g.root) scratch.old) }
{
    let mut w = Progress {
        row: 0,
        good: 0,
        below: 0,
    };
    // A `while`: the row is a part of the state that each step hands on (`walked`).
    while w.row < g.l1size {
        w = next_row(w, image, scratch, g, table, leaf);
    }
    w
}
