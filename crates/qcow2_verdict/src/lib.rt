// The verdict where no entry is bad: the stored counts against the scratch's figures, and the marks.
#![tactic(auto)]

ghost use Rattle.std.specs.Prelude.{◌≡◌, true, ◌*◌, ◌≤◌, ltb, length, if◌then◌else◌};
ghost use Rattle.choice.specs.Pick.{first};
ghost use Rattle.packed_twos.specs.Twos.{figures_in};
ghost use Rattle.qcow2_spec.specs.Header.{clusters};
ghost use Rattle.qcow2_spec.specs.References.{l1_entries};
ghost use Rattle.qcow2_spec.specs.Check.{l1_verdict, wrong_marks, shared_at, counts_verdict};
ghost use Rattle.qcow2_spec.specs.Opened.{Opened, Active};
ghost use Rattle.qcow2_spec.specs.declared.Verdict.TheVariants.{Sound, Leaks};
ghost use Rattle.qcow2_figures.specs.Known.{Judged};
ghost use Rattle.qcow2_verdict.specs.Marks.{AllGood, OwnMarks};

use qcow2_spec::{Geometry, Verdict};
use tally::Counted;

// All clusters, block by block. A short count is the last thing looked at: nothing after it changes the verdict.
pub fn judge_blocks(image: &[u8], scratch: &[u8], g: Geometry) -> Counted
    requires { Opened g image.now × (length scratch.now ≡ 2 * g.clusters) }
    ensures { Judged image.now (figures_in scratch.now) g.clusters result }
{
    let per = qcow2_counts::per_block(g.bits, g.order);
    let n = g.clusters;
    let mut d = Counted { low: n, over: 0 };
    let mut b = 0;
    let mut k = 0;
    // A `while`: block and cluster go on together, and the last block may be short.
    while k < n {
        let at = qcow2_counts::block_at(image, g, b);
        let m = per.min(n - k);
        d = qcow2_block::judge_block(d, image, scratch, g.order, at, k, m);
        if d.low < n {
            return d;
        }
        k += m;
        b += 1;
    }
    d
}

// The verdict where so many clusters leak and there is nothing worse.
pub fn leaking(over: usize) -> Verdict
    ensures { result ≡ (if ltb 0 over then Leaks over else Sound) }
{
    if 0 < over {
        return Verdict::Leaks(over);
    }
    Verdict::Sound
}

// The verdict where no count is short: a wrong mark before leaking. Where all places are known to have bit 63 and one reference, no mark is looked at.
fn judge_marks(image: &[u8], scratch: &[u8], g: Geometry, own: bool, over: usize) -> Verdict
    requires { (Active g image.now × (length scratch.now ≡ 2 * g.clusters)) × (AllGood image.now × (own ≡ true → OwnMarks image.now (figures_in scratch.now))) }
    ensures { result ≡ l1_verdict image.now (wrong_marks image.now (figures_in scratch.now)) 0 (l1_entries image.now 0) (if ltb 0 over then Leaks over else Sound) }
{
    if own {
        return leaking(over);
    }
    let v = qcow2_bad::first_mark(image, scratch, g);
    if qcow2_bad::is_sound(v) {
        return leaking(over);
    }
    v
}

// The verdict where no entry is bad: shared before short before wrong marks before leaking.
pub fn judge_counts(image: &[u8], scratch: &[u8], g: Geometry, shared: usize, own: bool) -> Verdict
    requires { ((Active g image.now × (length scratch.now ≡ 2 * g.clusters)) × (shared ≡ first (shared_at image.now) 0 (clusters image.now))) × (AllGood image.now × (own ≡ true → clusters image.now ≤ first (shared_at image.now) 0 (clusters image.now) → OwnMarks image.now (figures_in scratch.now))) }
    ensures { result ≡ counts_verdict image.now (figures_in scratch.now) }
{
    let n = g.clusters;
    if shared < n {
        return Verdict::Shared(shared);
    }
    let d = judge_blocks(image, scratch, g);
    let low = d.low;
    if low < n {
        return Verdict::Short(low);
    }
    judge_marks(image, scratch, g, own, d.over)
}
