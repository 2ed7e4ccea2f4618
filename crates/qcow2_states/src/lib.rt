// The lowest shared cluster of an image with snapshots, by its own bytes: two bytes for each cluster of a window tell how it was reached.
#![tactic(auto)]

ghost use Rattle.std.specs.Prelude.{◌≡◌, true, ◌+◌, ◌*◌, ◌/◌, ◌%◌, ◌≤◌, ◌<◌, length, replicate};
ghost use Rattle.choice.specs.Pick.{first};
ghost use Rattle.endian.specs.Big.{part};
ghost use Rattle.tally.specs.States.{table_kind, data_kind};
ghost use Rattle.window.specs.Window.{board, tree_visited_in};
ghost use Rattle.qcow2_spec.specs.Header.{clusters as clusters_of, roots};
ghost use Rattle.qcow2_spec.specs.References.{l1_entries, l1_refs};
ghost use Rattle.qcow2_spec.specs.Check.{or_else, l1_verdict, bad_in, roots_verdict, shared_at};
ghost use Rattle.qcow2_spec.specs.Opened.{Active};
ghost use Rattle.qcow2_spec.specs.declared.Verdict.TheVariants.{Sound};
ghost use Rattle.qcow2_forest.specs.Forest.{states_of};
ghost use Rattle.qcow2_lowest.specs.Lowest.{LowestIn};

use qcow2_spec::{Geometry, Verdict};
use qcow2_swept::Sweep;

// The lowest shared cluster or the number of clusters, and whether all entries are good.
#[derive(Clone, Copy)]
pub struct Looked {
    pub shared: usize,
    pub good: bool,
}

// Visits what L1 table t refers to, and names its first bad entry where none was found before.
fn next_root(w: Sweep, image: &[u8], window: &mut [u8], g: Geometry, t: usize, b: usize) -> Sweep
    requires { Active g image.now × (t < roots image.now) }
    ensures { (result.found ≡ or_else w.found (l1_verdict image.now (bad_in image.now t) 0 (l1_entries image.now t) Sound)) × (board window.new result.low ≡ tree_visited_in (l1_refs image.now) (table_kind t) (data_kind t) b (l1_entries image.now t) (board window.old w.low)) }
{
    let r = qcow2_snapshots::root_at(image, g, t);
    let table = qcow2_trees::table_by(true, t);
    let leaf = qcow2_trees::data_by(true, t);
    qcow2_swept::sweep_rows(w, image, window, r, 0, r.l1size, table, leaf, b)
}

// Visits the fixed places and what all L1 tables refer to in a cleared window, which has two bytes for each cluster from b on, and names the first bad entry.
fn sweep_states(image: &[u8], window: &mut [u8], g: Geometry, b: usize) -> Sweep
    requires { Active g image.now × ((window.old ≡ replicate (length window.old) 0) × (length window.old % 2 ≡ 0) × (2 * b + length window.old ≤ 2 * g.clusters)) }
    ensures { (result.found ≡ roots_verdict image.now 0 (roots image.now) Sound) × (window.new ≡ part (states_of image.now) (2 * b) (length window.old)) }
{
    qcow2_fixed::visit_fixed(image, window, 0, g, 1, b);
    let mut w = Sweep {
        low: 0,
        found: Verdict::Sound,
    };
    for t in 0..g.snapshots + 1 {
        w = next_root(w, image, window, g, t, b);
    }
    w
}

// The clusters of one window, which has two bytes for each, from b on.
fn look_window(image: &[u8], window: &mut [u8], g: Geometry, b: usize) -> Looked
    requires { Active g image.now × ((length window.old % 2 ≡ 0) × (2 * b + length window.old ≤ 2 * g.clusters)) }
    ensures { LowestIn image.now b (b + length window.old / 2) result.shared × (result.good ≡ true → roots_verdict image.now 0 (roots image.now) Sound ≡ Sound) }
{
    tally::clear(window);
    let w = sweep_states(image, window, g, b);
    let found = w.found;
    let good = qcow2_bad::is_sound(found);
    let j = scans::first_bad(window);
    if j < window.len() / 2 {
        return Looked {
            shared: b + j,
            good,
        };
    }
    Looked {
        shared: g.clusters,
        good,
    }
}

// All clusters, window by window: the lowest shared one ends the search.
pub fn look(image: &[u8], window: &mut [u8], g: Geometry) -> Looked
    requires { Active g image.now × (2 ≤ length window.old) }
    ensures { (result.shared ≡ first (shared_at image.now) 0 (clusters_of image.now)) × (result.good ≡ true → roots_verdict image.now 0 (roots image.now) Sound ≡ Sound) }
{
    let n = g.clusters;
    let most = window.len() / 2;
    let mut good = false;
    let mut b = 0;
    // A `while`: each window begins where the last one ended, and the last may be short.
    while b < n {
        let k = most.min(n - b);
        let m = 2 * k;
        let w = look_window(image, &mut window[..m], g, b);
        if w.shared < n {
            return w;
        }
        good = w.good;
        b += k;
    }
    Looked { shared: n, good }
}
