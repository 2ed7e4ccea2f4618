// Taking L1 entries, table by table: the references through them are added to the scratch, and the first bad one is named.
#![tactic(auto)]

ghost use Rattle.std.specs.Prelude.{◌≡◌, ◌*◌, ◌≤◌, ◌<◌, length, take as take_of};
ghost use Rattle.qcow2_spec.specs.Opened.{Active};
ghost use Rattle.qcow2_portions.specs.Rows.{ahead, added, met, root_after, row_after, started};
ghost use Rattle.qcow2_take.specs.Taking.{Takes};

use qcow2_spec::{Geometry, Verdict};
use qcow2_swept::Sweep;

// Where the check stands: the L1 table and the index after the last entry taken, how many are still to be taken, and the first bad one met.
#[derive(Clone, Copy)]
pub struct Taking {
    pub root: usize,
    pub row: usize,
    pub left: usize,
    pub found: Verdict,
}

// The references of cluster 0, of the tables and of the blocks in a cleared scratch.
pub fn begin(image: &[u8], scratch: &mut [u8], g: Geometry)
    requires { Active g image.now × (length scratch.old ≡ 2 * g.clusters) }
    ensures { scratch.new ≡ started image.now }
{
    tally::clear(scratch);
    qcow2_fixed::visit_fixed(image, scratch, 0, g, 0, 0);
}

// Those of one table, at most as many as are still to be taken.
fn take_table(w: Taking, image: &[u8], scratch: &mut [u8], g: Geometry) -> Taking
    requires { (Active g image.now × (length scratch.old ≡ 2 * g.clusters)) × ((0 < w.left) × (w.left ≤ length (ahead image.now w.root w.row))) }
    ensures { Takes image.now w scratch.old result scratch.new }
{
    let r = qcow2_snapshots::root_at(image, g, w.root);
    let here = r.l1size.saturating_sub(w.row);
    let from = w.row.min(r.l1size);
    let found = w.found;
    let s = Sweep { low: 0, found };
    if w.left <= here {
        let e = qcow2_swept::sweep_rows(s, image, scratch, r, from, from + w.left, 0, 0, 0);
        let met = e.found;
        return Taking {
            root: w.root,
            row: w.row + w.left,
            left: 0,
            found: met,
        };
    }
    let e = qcow2_swept::sweep_rows(s, image, scratch, r, from, r.l1size, 0, 0, 0);
    let met = e.found;
    Taking {
        root: w.root + 1,
        row: 0,
        left: w.left - here,
        found: met,
    }
}

// So many of the entries that are ahead from an index of an L1 table on.
pub fn take(
    image: &[u8],
    scratch: &mut [u8],
    g: Geometry,
    root: usize,
    row: usize,
    found: Verdict,
    count: usize,
) -> Taking
    requires { (Active g image.now × (length scratch.old ≡ 2 * g.clusters)) × (count ≤ length (ahead image.now root row)) }
    ensures { ((result.root ≡ root_after root (take_of count (ahead image.now root row))) × (result.row ≡ row_after row (take_of count (ahead image.now root row)))) × ((result.found ≡ met image.now (take_of count (ahead image.now root row)) found) × (scratch.new ≡ added image.now (take_of count (ahead image.now root row)) scratch.old)) }
{
    let mut w = Taking {
        root,
        row,
        left: count,
        found,
    };
    // A `while`: what is left is a part of the state that each step hands on (`Takes`).
    while 0 < w.left {
        w = take_table(w, image, scratch, g);
    }
    w
}
