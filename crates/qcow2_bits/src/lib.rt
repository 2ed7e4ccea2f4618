// The lowest shared cluster of an image without snapshots, by its own bytes: one bit for each cluster of a window.
#![tactic(auto)]

ghost use Rattle.std.specs.Prelude.{◌≡◌, true, ◌+◌, ◌-◌, ◌*◌, ◌≤◌, min, length};
ghost use Rattle.choice.specs.Pick.{first};
ghost use Rattle.window.specs.Window.{board, bit_kind, visit_all_in};
ghost use Rattle.qcow2_spec.specs.Header.{clusters as clusters_of, snapshots as shots};
ghost use Rattle.qcow2_spec.specs.References.{references, l1_entries};
ghost use Rattle.qcow2_spec.specs.Check.{l1_verdict, shared_at};
ghost use Rattle.qcow2_spec.specs.Opened.{Active};
ghost use Rattle.qcow2_spec.specs.declared.Verdict.TheVariants.{Sound};
ghost use Rattle.qcow2_lowest.specs.Lowest.{LowestIn};
ghost use Rattle.qcow2_swept.specs.Rows.{seek_by};
ghost use Rattle.qcow2_bits.specs.Found.{AllOwn, SameFrom};

use qcow2_spec::{Geometry, Verdict};
use qcow2_swept::Sweep;

// The lowest shared cluster or the number of clusters, whether all active entries have bit 63 beside their places, and whether the scratch has the
// references of this image. Where a cluster is shared the last two say nothing.
#[derive(Clone, Copy)]
pub struct Looked {
    pub shared: usize,
    pub own: bool,
    pub same: bool,
}

// Sets the bits of what is referred to in the window from b on.
fn sweep_bits(image: &[u8], window: &mut [u8], g: Geometry, b: usize) -> Sweep
    requires { Active g image.now × (shots image.now ≡ 0) }
    ensures { (result.found ≡ l1_verdict image.now (seek_by bit_kind image.now 0) 0 (l1_entries image.now 0) Sound) × (board window.new result.low ≡ visit_all_in bit_kind b (references image.now) (board window.old (clusters_of image.now))) }
{
    let low = qcow2_fixed::visit_fixed(image, window, g.clusters, g, 512, b);
    let w = Sweep {
        low,
        found: Verdict::Sound,
    };
    qcow2_swept::sweep_rows(w, image, window, g, 0, g.l1size, 512, 512, b)
}

// The clusters of one window, k from b on: as many as it has bits for, or all that are left.
fn look_window(
    image: &[u8],
    scratch: &[u8],
    window: &mut [u8],
    g: Geometry,
    b: usize,
    k: usize,
) -> Looked
    requires { ((Active g image.now × (shots image.now ≡ 0)) × (length scratch.now ≡ 2 * g.clusters)) × ((b ≤ g.clusters) × (k ≡ min (8 * length window.old) (g.clusters - b))) }
    ensures { LowestIn image.now b (b + k) result.shared × ((result.own ≡ true → AllOwn image.now) × (result.same ≡ true → SameFrom image.now scratch.now b (b + k))) }
{
    tally::clear(window);
    let w = sweep_bits(image, window, g, b);
    let found = w.found;
    let first = 2 * b;
    Looked {
        shared: w.low,
        own: qcow2_bad::is_sound(found),
        same: bit_figures::same(&scratch[first..], window, k),
    }
}

// All clusters, window by window: the lowest shared one ends the search.
pub fn look(image: &[u8], scratch: &[u8], window: &mut [u8], g: Geometry) -> Looked
    requires { ((Active g image.now × (shots image.now ≡ 0)) × (length scratch.now ≡ 2 * g.clusters)) × (1 ≤ length window.old) }
    ensures { (result.shared ≡ first (shared_at image.now) 0 (clusters_of image.now)) × (result.shared ≡ g.clusters → (result.own ≡ true → AllOwn image.now) × (result.same ≡ true → SameFrom image.now scratch.now 0 g.clusters)) }
{
    let n = g.clusters;
    // More bytes than clusters are not needed, and eight times as many might be too large a number.
    let most = window.len().min(n);
    let mut own = false;
    let mut same = true;
    let mut b = 0;
    // A `while`: each window begins where the last one ended, and the last may be short.
    while b < n {
        let k = (8 * most).min(n - b);
        let w = look_window(image, scratch, window, g, b, k);
        if w.shared < n {
            return Looked {
                shared: w.shared,
                own: false,
                same: false,
            };
        }
        own = w.own;
        same &= w.same;
        b += k;
    }
    Looked {
        shared: n,
        own,
        same,
    }
}
