// Visiting the fixed places in a window: cluster 0, the clusters of the tables and the refcount blocks. Each returns the lowest cluster that was reached again.
#![tactic(auto)]

ghost use Rattle.std.specs.Prelude.{◌≡◌, ◌^◌, ◌≤◌, take};
ghost use Rattle.tally.specs.Tally.{joined};
ghost use Rattle.window.specs.Window.{board, visit_all_in};
ghost use Rattle.qcow2_spec.specs.Header.{most_bits, cluster_size, blocks as blocks_of, table as table_of};
ghost use Rattle.qcow2_spec.specs.References.{named, fixed_refs};
ghost use Rattle.qcow2_spec.specs.Opened.{Opened, Active};

use qcow2_spec::Geometry;

mod spans;
mod tables;

// Visits the cluster that a place names, where it names one.
fn visit_place(target: &mut [u8], low: usize, p: u64, bits: u32, kind: u16, b: usize) -> usize
    requires { (bits ≤ most_bits) × (kind ≤ 512) }
    ensures { board target.new result ≡ visit_all_in kind b (named (2 ^ bits) p) (board target.old low) }
{
    if p == 0 {
        return low;
    }
    window::visit(target, low, b, power::quotient(p, bits) as usize, kind)
}

// Visits the refcount blocks.
fn visit_blocks(
    image: &[u8],
    target: &mut [u8],
    low: usize,
    g: Geometry,
    kind: u16,
    b: usize,
) -> usize
    requires { Opened g image.now × (kind ≤ 512) }
    ensures { board target.new result ≡ visit_all_in kind b (joined (named (cluster_size image.now)) (take (blocks_of image.now) (table_of image.now))) (board target.old low) }
{
    let mut least = low;
    for i in 0..g.blocks {
        let at = qcow2_counts::block_at(image, g, i);
        least = visit_place(target, least, at as u64, g.bits, kind, b);
    }
    least
}

// Visits cluster 0, the tables' clusters and the blocks.
pub fn visit_fixed(
    image: &[u8],
    target: &mut [u8],
    low: usize,
    g: Geometry,
    kind: u16,
    b: usize,
) -> usize
    requires { Active g image.now × (kind ≤ 512) }
    ensures { board target.new result ≡ visit_all_in kind b (fixed_refs image.now) (board target.old low) }
{
    let first = window::visit(target, low, b, 0, kind);
    let counts = spans::visit_clusters(target, first, g.tableat, g.tableclusters, g.bits, kind, b);
    let roots = tables::visit_roots(image, target, counts, g, kind, b);
    let shots = tables::visit_snapshots(image, target, roots, g, kind, b);
    visit_blocks(image, target, shots, g, kind, b)
}
