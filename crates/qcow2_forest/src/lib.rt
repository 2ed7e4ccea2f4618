// All L1 tables: their references into the scratch, the lowest shared cluster, and how far the entries pass.
#![tactic(auto)]

ghost use Rattle.std.specs.Prelude.{◌≡◌, true, false, not, ◌*◌, eqb, length};
ghost use Rattle.choice.specs.Pick.{first};
ghost use Rattle.tally.specs.Tally.{wide};
ghost use Rattle.qcow2_spec.specs.Header.{clusters as clusters_of, snapshots as shots, roots};
ghost use Rattle.qcow2_spec.specs.References.{figures_of};
ghost use Rattle.qcow2_spec.specs.Check.{shared_at};
ghost use Rattle.qcow2_spec.specs.Opened.{Active};
ghost use Rattle.qcow2_trees.specs.Walks.{Front};
ghost use Rattle.qcow2_forest.specs.Forest.{states_of};

use qcow2_spec::Geometry;
use qcow2_trees::Spot;

// The lowest shared cluster, or the number of clusters, and how far the entries pass.
#[derive(Clone, Copy)]
pub struct Tallied {
    pub shared: usize,
    pub root: usize,
    pub row: usize,
    pub below: usize,
}

// Counts all references.
fn count_alone(image: &[u8], scratch: &mut [u8], g: Geometry) -> Spot
    requires { Active g image.now × (length scratch.old ≡ 2 * g.clusters) }
    ensures { Front false image.now (roots image.now) result.root result.row result.below × (scratch.new ≡ wide (figures_of image.now)) }
{
    tally::clear(scratch);
    qcow2_fixed::visit_fixed(image, scratch, 0, g, 0, 0);
    qcow2_trees::walk_roots(image, scratch, g, false)
}

// Without snapshots a cluster is shared where it has two references or more.
fn count_single(image: &[u8], scratch: &mut [u8], g: Geometry) -> Tallied
    requires { (Active g image.now × (length scratch.old ≡ 2 * g.clusters)) × (shots image.now ≡ 0) }
    ensures { Front false image.now (roots image.now) result.root result.row result.below × ((result.shared ≡ first (shared_at image.now) 0 (clusters_of image.now)) × (scratch.new ≡ wide (figures_of image.now))) }
{
    let f = count_alone(image, scratch, g);
    Tallied {
        shared: scans::lowest_double(scratch),
        root: f.root,
        row: f.row,
        below: f.below,
    }
}

// How each cluster was reached, and how often.
fn walk_states(image: &[u8], scratch: &mut [u8], g: Geometry) -> Spot
    requires { Active g image.now × (length scratch.old ≡ 2 * g.clusters) }
    ensures { Front true image.now (roots image.now) result.root result.row result.below × (scratch.new ≡ states_of image.now) }
{
    tally::clear(scratch);
    qcow2_fixed::visit_fixed(image, scratch, 0, g, 1, 0);
    qcow2_trees::walk_roots(image, scratch, g, true)
}

// The references of each cluster after such a walk, which has them where no cluster is shared.
fn settle(image: &[u8], scratch: &mut [u8], g: Geometry, shared: usize)
    requires { (Active g image.now × (length scratch.old ≡ 2 * g.clusters)) × ((shared ≡ first (shared_at image.now) 0 (clusters_of image.now)) × (scratch.old ≡ states_of image.now)) }
    ensures { scratch.new ≡ wide (figures_of image.now) }
{
    if shared < g.clusters {
        count_alone(image, scratch, g);
        return;
    }
    visits::unpack(scratch);
}

// With snapshots a cluster may have references from several L1 tables.
fn count_states(image: &[u8], scratch: &mut [u8], g: Geometry) -> Tallied
    requires { Active g image.now × (length scratch.old ≡ 2 * g.clusters) }
    ensures { Front true image.now (roots image.now) result.root result.row result.below × ((result.shared ≡ first (shared_at image.now) 0 (clusters_of image.now)) × (scratch.new ≡ wide (figures_of image.now))) }
{
    let f = walk_states(image, scratch, g);
    let shared = scans::first_bad(scratch);
    settle(image, scratch, g, shared);
    Tallied {
        shared,
        root: f.root,
        row: f.row,
        below: f.below,
    }
}

// Counts all references, finds the lowest shared cluster, and says how far the entries pass: by goodness alone where there are snapshots, else
// only those that have bit 63 beside their place.
pub fn count_all(image: &[u8], scratch: &mut [u8], g: Geometry) -> Tallied
    requires { Active g image.now × (length scratch.old ≡ 2 * g.clusters) }
    ensures { Front (not (eqb (shots image.now) 0)) image.now (roots image.now) result.root result.row result.below × ((result.shared ≡ first (shared_at image.now) 0 (clusters_of image.now)) × (scratch.new ≡ wide (figures_of image.now))) }
{
    if g.snapshots == 0 {
        return count_single(image, scratch, g);
    }
    count_states(image, scratch, g)
}
