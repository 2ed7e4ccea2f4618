// How many L1 entries are ahead of a place of the check.
#![tactic(auto)]

ghost use Rattle.std.specs.Prelude.{◌≡◌, suc, ◌-◌, ◌*◌, ◌≤◌, ◌<◌, length};
ghost use Rattle.qcow2_spec.specs.Header.{most_l1, most_snapshots, snapshots as shots, snapshot_at};
ghost use Rattle.qcow2_spec.specs.Opened.{Opened, Active};
ghost use Rattle.qcow2_portions.specs.Rows.{ahead};

use qcow2_spec::Geometry;

// The entries of snapshot k's L1 table and of the later ones; its own entry stands at p. Each size is read where the entry before ends.
fn count_from(image: &[u8], g: Geometry, k: usize, p: usize) -> usize
    requires { (Opened g image.now × (k ≤ shots image.now)) × (p ≡ snapshot_at image.now k) }
    ensures { (result ≡ length (ahead image.now (suc k) 0)) × (result ≤ most_l1 * most_snapshots) }
{
    let mut n = 0;
    let mut at = p;
    for j in k..g.snapshots {
        n += qcow2_snapshots::size_at(image, g, j, at);
        at = qcow2_snapshots::next_place(image, g, j, at);
    }
    n
}

// The entries from index i of snapshot k's L1 table on, and those of the later ones.
fn count_shots(image: &[u8], g: Geometry, k: usize, i: usize) -> usize
    requires { Opened g image.now × (k < shots image.now) }
    ensures { result ≡ length (ahead image.now (suc k) i) }
{
    let p = qcow2_snapshots::place_of(image, g, k);
    let own = qcow2_snapshots::size_at(image, g, k, p).saturating_sub(i);
    own + count_from(image, g, k + 1, qcow2_snapshots::next_place(image, g, k, p))
}

// The entries from index i of L1 table t on, and those of the tables after it; none where there is no table t.
pub fn count_ahead(image: &[u8], g: Geometry, t: usize, i: usize) -> usize
    requires { Active g image.now }
    ensures { result ≡ length (ahead image.now t i) }
{
    if t > g.snapshots {
        return 0;
    }
    if t > 0 {
        return count_shots(image, g, t - 1, i);
    }
    g.l1size.saturating_sub(i) + count_from(image, g, 0, g.snapshotsat)
}
