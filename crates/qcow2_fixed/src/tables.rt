// Visiting the clusters of the L1 tables and of the snapshot table.
ghost use Rattle.std.specs.Prelude.{◌≡◌, ◌≤◌};
ghost use Rattle.tally.specs.Tally.{run, joined};
ghost use Rattle.window.specs.Window.{board, visit_all_in};
ghost use Rattle.qcow2_spec.specs.Header.{roots};
ghost use Rattle.qcow2_spec.specs.References.{root_run, snapshot_run};
ghost use Rattle.qcow2_spec.specs.Opened.{Opened, Active};

use crate::spans;
use qcow2_spec::Geometry;

// Visits the clusters of one L1 table.
fn visit_root(
    image: &[u8],
    target: &mut [u8],
    low: usize,
    r: Geometry,
    kind: u16,
    b: usize,
) -> usize
    requires { Opened r image.now × (kind ≤ 512) }
    ensures { board target.new result ≡ visit_all_in kind b (root_run image.now r.root) (board target.old low) }
{
    spans::visit_bytes(target, low, r.l1at, 8 * r.l1size, r.bits, kind, b)
}

// Visits those of all L1 tables.
pub fn visit_roots(
    image: &[u8],
    target: &mut [u8],
    low: usize,
    g: Geometry,
    kind: u16,
    b: usize,
) -> usize
    requires { Active g image.now × (kind ≤ 512) }
    ensures { board target.new result ≡ visit_all_in kind b (joined (root_run image.now) (run 0 (roots image.now))) (board target.old low) }
{
    let mut least = low;
    for t in 0..g.snapshots + 1 {
        let r = qcow2_snapshots::root_at(image, g, t);
        least = visit_root(image, target, least, r, kind, b);
    }
    least
}

// Visits the clusters of the snapshot table. Where there is no snapshot its place may be any number.
pub fn visit_snapshots(
    image: &[u8],
    target: &mut [u8],
    low: usize,
    g: Geometry,
    kind: u16,
    b: usize,
) -> usize
    requires { Opened g image.now × (kind ≤ 512) }
    ensures { board target.new result ≡ visit_all_in kind b (snapshot_run image.now) (board target.old low) }
{
    if g.snapshots == 0 {
        return low;
    }
    let bytes = qcow2_snapshots::table_end(image, g) - g.snapshotsat;
    spans::visit_bytes(target, low, g.snapshotsat, bytes, g.bits, kind, b)
}
