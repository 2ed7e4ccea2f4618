// The rows of the counts that a repair sets, all of one epoch.
ghost use Rattle.std.specs.Prelude.{◌+◌, ◌≤◌};
ghost use Rattle.packed_twos.specs.Twos.{many, figures_in};
ghost use Rattle.qcow2_spec.specs.Check.{repair_units};
ghost use Rattle.qcow2_spec.specs.Steps.{extents, rows_of};
ghost use Rattle.qcow2_spec.specs.Opened.{Opened};
ghost use Rattle.qcow2_rows.specs.Rows.{Puts};

use crate::put_count;
use qcow2_spec::Geometry;

// Those of all clusters whose counts differ from refs.
pub fn count_rows(
    image: &[u8],
    g: Geometry,
    refs: &[u8],
    rows: &mut [u64],
    k: usize,
    epoch: u64,
) -> usize
    requires { Opened g image.now × ((k ≤ 1) × (g.clusters ≤ many refs.now)) }
    ensures { (result ≤ k + g.clusters) × Puts (rows_of epoch (extents (repair_units image.now (figures_in refs.now) 0 g.clusters))) rows.old k rows.new result }
{
    let mut r = k;
    for i in 0..g.clusters {
        let at = qcow2_counts::count_at(image, g, i);
        let stored = widths::load(image, g.order, at);
        if stored != endian::load16(refs, 2 * i) as u64 {
            r = put_count(rows, r, g.order, at, epoch);
        }
    }
    r
}
