// What the last portion of a check judges: sharing by the image's own bytes, counts and marks by these and the scratch.
#![tactic(auto)]

ghost use Rattle.std.specs.Prelude.{◌≡◌, ◌*◌, ◌≤◌, length};
ghost use Rattle.choice.specs.Pick.{first};
ghost use Rattle.packed_twos.specs.Twos.{figures_in};
ghost use Rattle.qcow2_spec.specs.Header.{clusters as clusters_of};
ghost use Rattle.qcow2_spec.specs.Check.{or_else, shared_at};
ghost use Rattle.qcow2_spec.specs.Opened.{Active};
ghost use Rattle.qcow2_portions.specs.Last.{last_verdict};

use qcow2_spec::{Geometry, Verdict};

// Counts and marks of an image in which nothing is shared and entries may be bad, which were not met: it has changed meanwhile.
fn judge_changed(image: &[u8], scratch: &[u8], g: Geometry) -> Verdict
    requires { (Active g image.now × (length scratch.now ≡ 2 * g.clusters)) × (clusters_of image.now ≤ first (shared_at image.now) 0 (clusters_of image.now)) }
    ensures { result ≡ last_verdict image.now (figures_in scratch.now) }
{
    let n = g.clusters;
    let d = qcow2_verdict::judge_blocks(image, scratch, g);
    let low = d.low;
    if low < n {
        return Verdict::Short(low);
    }
    let v = qcow2_remark::first_wrong(image, scratch, g);
    if qcow2_bad::is_sound(v) {
        return qcow2_verdict::leaking(d.over);
    }
    v
}

// Sharing, then counts and marks.
fn judge_last(image: &[u8], scratch: &[u8], g: Geometry) -> Verdict
    requires { Active g image.now × (length scratch.now ≡ 2 * g.clusters) }
    ensures { result ≡ last_verdict image.now (figures_in scratch.now) }
{
    let w = qcow2_windows::look(image, scratch, g);
    let shared = w.shared;
    if shared < g.clusters {
        return Verdict::Shared(shared);
    }
    if w.good {
        return qcow2_verdict::judge_counts(image, scratch, g, shared, w.right);
    }
    judge_changed(image, scratch, g)
}

// The verdict of a check once all entries are taken: the first bad one that was met comes before all that is judged now.
pub fn verdict_of(image: &[u8], scratch: &[u8], g: Geometry, found: Verdict) -> Verdict
    requires { Active g image.now × (length scratch.now ≡ 2 * g.clusters) }
    ensures { result ≡ or_else found (last_verdict image.now (figures_in scratch.now)) }
{
    if qcow2_bad::is_sound(found) {
        return judge_last(image, scratch, g);
    }
    found
}
