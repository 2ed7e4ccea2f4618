// A sweep over entries of an L1 table and of the tables below them: each visits what it refers to in a window, an L2 table by one kind and what
// stands below it by another, and the first that fails is named. A bad entry refers to nothing, and the sweep goes on past it.
#![tactic(auto)]

ghost use Rattle.std.specs.Prelude.{◌≡◌, ◌*◌, ◌+◌, ◌-◌, ◌/◌, ◌^◌, ◌≤◌, ◌<◌, length, take, drop};
ghost use Rattle.window.specs.Window.{board, entry_visited_in, tree_visited_in};
ghost use Rattle.qcow2_spec.specs.References.{table_refs, l1_refs, l1_entries, l2_entries};
ghost use Rattle.qcow2_spec.specs.Check.{or_else, entry_verdict, l1_verdict};
ghost use Rattle.qcow2_spec.specs.Opened.{Opened};
ghost use Rattle.qcow2_spec.specs.Header.{version as version_of, cluster_size};
ghost use Rattle.qcow2_spec.specs.declared.Verdict.TheVariants.{Sound};
ghost use Rattle.qcow2_refs.specs.Walks.{row_at};
ghost use Rattle.qcow2_groups.specs.Walks.{fore};
ghost use Rattle.qcow2_sweep.specs.Sweeps.{passes_by};
ghost use Rattle.qcow2_swept.specs.Rows.{seek_by, row_fore, named_by, Blank};

use qcow2_spec::{Geometry, Verdict};
use qcow2_sweep::{BITS, Seen};

// The lowest cluster that was reached again, and the first entry that failed: Sound where none did.
#[derive(Clone, Copy)]
pub struct Sweep {
    pub low: usize,
    pub found: Verdict,
}

// Visits an L2 table at a place of the image, and what its entries refer to.
fn sweep_below(
    image: &[u8],
    target: &mut [u8],
    low: usize,
    p: u64,
    g: Geometry,
    table: u16,
    leaf: u16,
    b: usize,
) -> Seen
    requires { (Opened g image.now × (p + 2 ^ g.bits ≤ length image.now)) × ((table ≤ 512) × (leaf ≤ 512)) }
    ensures { (result.fore ≡ fore (passes_by leaf (version_of image.now) (cluster_size image.now) (length image.now)) (l2_entries image.now p)) × (board target.new result.low ≡ entry_visited_in table leaf b (table_refs image.now p) (board target.old low)) }
{
    let at = p as usize;
    let c = power::power(g.bits) as usize;
    let k = power::quotient(p, g.bits) as usize;
    let least = window::visit(target, low, b, k, table);
    qcow2_sweep::sweep_table(
        &image[at..at + c],
        target,
        least,
        g.version,
        g.bits,
        image.len() as u64,
        leaf,
        b,
    )
}

// One more than the entries of an L2 table.
fn past_table(g: Geometry) -> usize
    requires { g.bits ≤ 21 }
    ensures { result ≡ 2 ^ g.bits / 8 + 1 }
{
    (power::power(g.bits) / 8) as usize + 1
}

// Visits what an L1 entry and the table below it refer to, and says how they fare.
fn sweep_row(
    image: &[u8],
    target: &mut [u8],
    low: usize,
    e: u64,
    g: Geometry,
    table: u16,
    leaf: u16,
    b: usize,
) -> Seen
    requires { Opened g image.now × ((table ≤ 512) × (leaf ≤ 512)) }
    ensures { (result.fore ≡ row_fore leaf image.now e) × (board target.new result.low ≡ entry_visited_in table leaf b (l1_refs image.now e) (board target.old low)) }
{
    if qcow2_entry::good_l1(e, image.len() as u64, g.bits) {
        let p = qcow2_entry::place_of(e);
        if p == 0 {
            return Seen {
                low,
                fore: (power::power(g.bits) / 8) as usize,
            };
        }
        let s = sweep_below(image, target, low, p, g, table, leaf, b);
        if leaf == BITS {
            if qcow2_entry::is_common(e) {
                return Seen {
                    low: s.low,
                    fore: past_table(g),
                };
            }
        }
        return s;
    }
    Seen {
        low,
        fore: past_table(g),
    }
}

// The first of two verdicts that is not sound: one that was found before, and that by L1 entry i of L1 table t.
fn named(found: Verdict, t: usize, i: usize, fore: usize, per: usize) -> Verdict
    ensures { result ≡ or_else found (named_by t i fore per) }
{
    if fore == per {
        return found;
    }
    match found {
        Verdict::Sound => {
            if fore < per {
                return Verdict::BadL2(t, i, fore);
            }
            Verdict::BadL1(t, i)
        }
        _ => found,
    }
}

// L1 entry i more.
fn next_row(
    w: Sweep,
    image: &[u8],
    target: &mut [u8],
    g: Geometry,
    i: usize,
    table: u16,
    leaf: u16,
    b: usize,
) -> Sweep
    requires { (Opened g image.now × (i < g.l1size)) × ((table ≤ 512) × (leaf ≤ 512)) }
    ensures { (result.found ≡ or_else w.found (entry_verdict image.now (seek_by leaf image.now g.root) i (row_at image.now g.root i) Sound)) × (board target.new result.low ≡ entry_visited_in table leaf b (l1_refs image.now (row_at image.now g.root i)) (board target.old w.low)) }
{
    let e = qcow2_refs::row_at(image, i, g);
    let s = sweep_row(image, target, w.low, e, g, table, leaf, b);
    let found = w.found;
    Sweep {
        low: s.low,
        found: named(
            found,
            g.root,
            i,
            s.fore,
            (power::power(g.bits) / 8) as usize,
        ),
    }
}

// How far entries from i up to another are 0, 64 at a time.
fn skip_groups(image: &[u8], at: usize, i: usize, to: usize) -> usize
    requires { (i ≤ to) × (at + 8 * to ≤ length image.now) }
    ensures { Blank image.now at i result × (result ≤ to) }
{
    let groups = (to - i) / 64;
    for d in 0..groups {
        let j = i + 64 * d;
        let p = at + 8 * j;
        if !blank::all_zeros(&image[p..p + 512]) {
            return j;
        }
    }
    i + 64 * groups
}

// The first that is not 0. Mostly it is the first of all.
fn skip(image: &[u8], at: usize, i: usize, to: usize) -> usize
    requires { (i < to) × (at + 8 * to ≤ length image.now) }
    ensures { Blank image.now at i result × (result ≤ to) }
{
    if endian::load64(image, at + 8 * i) != 0 {
        return i;
    }
    for j in skip_groups(image, at, i, to)..to {
        if endian::load64(image, at + 8 * j) != 0 {
            return j;
        }
    }
    to
}

// The L1 entries from one up to another. Those that are 0 are passed over.
pub fn sweep_rows(
    w: Sweep,
    image: &[u8],
    target: &mut [u8],
    g: Geometry,
    from: usize,
    to: usize,
    table: u16,
    leaf: u16,
    b: usize,
) -> Sweep
    requires { (Opened g image.now × ((from ≤ to) × (to ≤ g.l1size))) × ((table ≤ 512) × (leaf ≤ 512)) }
    ensures { (result.found ≡ or_else w.found (l1_verdict image.now (seek_by leaf image.now g.root) from (take (to - from) (drop from (l1_entries image.now g.root))) Sound)) × (board target.new result.low ≡ tree_visited_in (l1_refs image.now) table leaf b (take (to - from) (drop from (l1_entries image.now g.root))) (board target.old w.low)) }
{
    let mut s = w;
    let mut i = from;
    // A `while`: each turn goes on behind the entry that `skip` has found, and not behind i.
    while i < to {
        let k = skip(image, g.l1at, i, to);
        if k == to {
            return s;
        }
        s = next_row(s, image, target, g, k, table, leaf, b);
        i = k + 1;
    }
    s
}
