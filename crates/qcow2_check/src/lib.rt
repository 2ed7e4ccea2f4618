// The check of an accepted image.
#![tactic(auto)]

ghost use Rattle.std.specs.Prelude.{◌≡◌, ◌&&◌, ◌*◌, ◌≤◌, ltb, eqb, length};
ghost use Rattle.qcow2_spec.specs.References.{scratch_after};
ghost use Rattle.qcow2_spec.specs.Check.{verdict};
ghost use Rattle.qcow2_spec.specs.Opened.{Active};

use qcow2_spec::{Geometry, Verdict};

// Whether the walk has shown that every place has bit 63 beside it: it looks at that where there are no snapshots, and went through all.
fn all_own(snapshots: usize, root: usize) -> bool
    ensures { result ≡ (eqb snapshots 0 && ltb 0 root) }
{
    if snapshots == 0 {
        return 0 < root;
    }
    false
}

// The verdict on an accepted image. The scratch's first bytes end as the references, two bytes for each cluster.
pub fn check(image: &[u8], scratch: &mut [u8], g: Geometry) -> Verdict
    requires { Active g image.now × (2 * g.clusters ≤ length scratch.old) }
    ensures { (result ≡ verdict image.now) × (scratch.new ≡ scratch_after image.now scratch.old) }
{
    let m = 2 * g.clusters;
    let w = qcow2_forest::count_all(image, &mut scratch[..m], g);
    let v = qcow2_bad::first_bad(image, g, w.root, w.row, w.below);
    if !qcow2_bad::is_sound(v) {
        return v;
    }
    let own = all_own(g.snapshots, w.root);
    qcow2_verdict::judge_counts(image, &scratch[..m], g, w.shared, own)
}
