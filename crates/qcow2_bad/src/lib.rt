// The first bad entry of the L1 tables, and the first wrong mark of the active one.
#![tactic(auto)]

ghost use Rattle.std.specs.Prelude.{◌≡◌, ◌*◌, ◌<◌, length};
ghost use Rattle.tally.specs.States.{twos};
ghost use Rattle.qcow2_spec.specs.Header.{roots};
ghost use Rattle.qcow2_spec.specs.References.{l1_entries};
ghost use Rattle.qcow2_spec.specs.Check.{l1_verdict, bad_in, roots_verdict, wrong_marks};
ghost use Rattle.qcow2_spec.specs.Opened.{Active};
ghost use Rattle.qcow2_spec.specs.declared.Verdict.TheVariants.{Sound};
ghost use Rattle.qcow2_marks.specs.Marks.{GoodTo};
ghost use Rattle.qcow2_bad.specs.Known.{Spot, Before, sound};

use qcow2_spec::{Geometry, Verdict};

// Whether a verdict finds nothing wrong.
pub fn is_sound(v: Verdict) -> bool
    ensures { result ≡ sound v }
{
    matches!(v, Verdict::Sound)
}

// The first bad entry of L1 table t, of which the entries before i with all below them, and the first j below this one, are known to be good.
fn table_bad(image: &[u8], g: Geometry, t: usize, i: usize, j: usize) -> Verdict
    requires { (Active g image.now × (t < roots image.now)) × Spot image.now t i j }
    ensures { result ≡ l1_verdict image.now (bad_in image.now t) 0 (l1_entries image.now t) Sound }
{
    let root = qcow2_snapshots::root_at(image, g, t);
    qcow2_seek::search(image, image, root, i, j, false)
}

// The first bad entry of all L1 tables, the active one first. Sound where there is none. What stands before the spot is known to be good.
pub fn first_bad(image: &[u8], g: Geometry, root: usize, row: usize, below: usize) -> Verdict
    requires { Active g image.now × Before image.now root row below }
    ensures { result ≡ roots_verdict image.now 0 (roots image.now) Sound }
{
    let count = g.snapshots + 1;
    let mut i = row;
    let mut j = below;
    for t in root..count {
        let v = table_bad(image, g, t, i, j);
        if !is_sound(v) {
            return v;
        }
        i = 0;
        j = 0;
    }
    Verdict::Sound
}

// The first wrong mark of the active L1 table and of the tables below it, all of whose entries are good. Sound where there is none, which a
// simple walk tells; the search goes on where that walk stops.
pub fn first_mark(image: &[u8], scratch: &[u8], g: Geometry) -> Verdict
    requires { (Active g image.now × (length scratch.now ≡ 2 * g.clusters)) × GoodTo image.now 0 g.l1size }
    ensures { result ≡ l1_verdict image.now (wrong_marks image.now (twos scratch.now 0 g.clusters)) 0 (l1_entries image.now 0) Sound }
{
    let from = qcow2_marks::rows_right(image, scratch, g);
    qcow2_seek::search(image, scratch, g, from, 0, true)
}
