// The walk over all L1 tables in order.
#![tactic(auto)]

ghost use Rattle.std.specs.Prelude.{◌≡◌, ◌+◌, ◌*◌, ◌≤◌, ◌<◌, length};
ghost use Rattle.tally.specs.States.{tree_visited};
ghost use Rattle.qcow2_spec.specs.Header.{roots};
ghost use Rattle.qcow2_spec.specs.References.{l1_entries, l1_refs};
ghost use Rattle.qcow2_spec.specs.Opened.{Active};
ghost use Rattle.qcow2_trees.specs.Walks.{table_by, data_by, roots_visited, onward as onward_of, Front};

use qcow2_spec::Geometry;

// Where a walk over the L1 tables stands: a table, an entry of it, and how many entries below that.
#[derive(Clone, Copy)]
pub struct Spot {
    pub root: usize,
    pub row: usize,
    pub below: usize,
}

// The kind of a visit to an L2 table.
pub fn table_by(states: bool, t: usize) -> u16
    requires { t ≤ 64 }
    ensures { (result ≡ table_by states t) × (result < 512) }
{
    if states {
        return 2 + 4 * (t as u16 + 1);
    }
    0
}

// The kind of a visit to what stands below.
pub fn data_by(states: bool, t: usize) -> u16
    requires { t ≤ 64 }
    ensures { (result ≡ data_by states t) × (result < 512) }
{
    if states {
        return 3 + 4 * (t as u16 + 1);
    }
    0
}

// How far all passes, once L1 table t is walked too, of whose entries some at the front pass.
fn onward(f: Spot, t: usize, good: usize, below: usize, rows: usize) -> Spot
    requires { t ≤ 64 }
    ensures { result ≡ onward_of f t good below rows }
{
    if f.root < t {
        return f;
    }
    if good < rows {
        return Spot {
            root: t,
            row: good,
            below,
        };
    }
    Spot {
        root: t + 1,
        row: 0,
        below: 0,
    }
}

// One L1 table more.
fn next_root(f: Spot, image: &[u8], scratch: &mut [u8], g: Geometry, t: usize, states: bool) -> Spot
    requires { ((Active g image.now × (t < roots image.now)) × (length scratch.old ≡ 2 * g.clusters)) × Front states image.now t f.root f.row f.below }
    ensures { Front states image.now (t + 1) result.root result.row result.below × (scratch.new ≡ tree_visited (l1_refs image.now) (table_by states t) (data_by states t) (l1_entries image.now t) scratch.old) }
{
    let r = qcow2_snapshots::root_at(image, g, t);
    let w = qcow2_refs::walk::walk_rows(image, scratch, r, table_by(states, t), data_by(states, t));
    onward(f, t, w.good, w.below, r.l1size)
}

// All L1 tables.
pub fn walk_roots(image: &[u8], scratch: &mut [u8], g: Geometry, states: bool) -> Spot
    requires { Active g image.now × (length scratch.old ≡ 2 * g.clusters) }
    ensures { Front states image.now (roots image.now) result.root result.row result.below × (scratch.new ≡ roots_visited states image.now 0 (roots image.now) scratch.old) }
{
    let mut f = Spot {
        root: 0,
        row: 0,
        below: 0,
    };
    for t in 0..g.snapshots + 1 {
        f = next_root(f, image, scratch, g, t, states);
    }
    f
}
