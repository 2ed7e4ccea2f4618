// The lowest shared cluster by an image's own bytes, window by window, and what the sweeps tell of entries and marks.
#![tactic(auto)]

ghost use Rattle.std.specs.Prelude.{◌≡◌, ◌*◌, ◌≤◌, length};
ghost use Rattle.qcow2_spec.specs.Opened.{Active};
ghost use Rattle.qcow2_windows.specs.Looks.{Looks};

use qcow2_spec::Geometry;

// The lowest shared cluster or the number of clusters; whether all active entries are good; whether their marks are right by the scratch, which is
// told only where there are no snapshots.
#[derive(Clone, Copy)]
pub struct Looked {
    pub shared: usize,
    pub good: bool,
    pub right: bool,
}

// By a window of any length. Without snapshots a bit for each cluster is enough.
fn look_in(image: &[u8], scratch: &[u8], window: &mut [u8], g: Geometry) -> Looked
    requires { (Active g image.now × (length scratch.now ≡ 2 * g.clusters)) × (2 ≤ length window.old) }
    ensures { Looks image.now scratch.now result }
{
    if g.snapshots == 0 {
        let w = qcow2_bits::look(image, scratch, window, g);
        return Looked {
            shared: w.shared,
            good: w.own,
            right: w.own & w.same,
        };
    }
    let w = qcow2_states::look(image, window, g);
    Looked {
        shared: w.shared,
        good: w.good,
        right: false,
    }
}

// By a window of N bytes.
fn look_by<const N: usize>(image: &[u8], scratch: &[u8], g: Geometry) -> Looked
    requires { (Active g image.now × (length scratch.now ≡ 2 * g.clusters)) × ((2 ≤ N) × (N ≤ 65536)) }
    ensures { Looks image.now scratch.now result }
{
    let mut w = [0; N];
    look_in(image, scratch, &mut w, g)
}

// A small window is enough for few clusters, and need not be cleared for long.
pub fn look(image: &[u8], scratch: &[u8], g: Geometry) -> Looked
    requires { Active g image.now × (length scratch.now ≡ 2 * g.clusters) }
    ensures { Looks image.now scratch.now result }
{
    if g.clusters <= 512 {
        return look_by::<1024>(image, scratch, g);
    }
    look_by::<65536>(image, scratch, g)
}
