// The calls once the header is accepted: what the request must be, then the way, then the work.
#![tactic(auto)]

ghost use Rattle.std.specs.Prelude.{◌≡◌, suc, length};
ghost use Rattle.units.specs.Plan.{Done};
ghost use Rattle.qcow2_spec.specs.Opened.{Active};
ghost use Rattle.qcow2_spec.specs.Causes.{answer};
ghost use Rattle.qcow2_spec.specs.Guest.{range_number, range_into};
ghost use Rattle.qcow2_spec.specs.Store.{clearing, write_list, discard_list};
ghost use Rattle.qcow2_spec.specs.References.{scratch_counted};
ghost use Rattle.qcow2_spec.specs.Check.{checked, repair_list};

use qcow2_spec::refusal::{Cause, Refusal};
use qcow2_spec::{Geometry, Verdict};
use units::Ended;

// The bytes that a snapshot keeps: those of the disk that its L1 table reaches.
pub fn read_snapshot(
    image: &[u8],
    backing: &[u8],
    g: Geometry,
    snapshot: u64,
    x: u64,
    out: &mut [u8],
) -> Result<(), Refusal>
    requires { Active g image.now }
    ensures { (result ≡ answer (range_number image.now (suc snapshot) x (length out.old))) × (out.new ≡ range_into backing.now image.now (suc snapshot) x out.old) }
{
    if g.snapshots as u64 <= snapshot {
        return Err(Cause::Range.into());
    }
    let root = qcow2_snapshots::snapshot_root(image, g, snapshot as usize);
    qcow2_read::read_into(image, backing, root, x, out)
}

pub fn write(
    image: &mut [u8],
    backing: &[u8],
    g: Geometry,
    x: u64,
    src: &[u8],
    allowance: usize,
) -> Result<Ended, Refusal>
    requires { Active g image.old }
    ensures { Done (clearing image.old (write_list backing.now image.old x src.now)) allowance image.old result image.new }
{
    let len = src.len() as u64;
    if qcow2_own::past_write(g, x, len) {
        return Err(Cause::Range.into());
    }
    if len == 0 {
        return Ok(units::end_of(0, allowance));
    }
    let guest = power::quotient(x, g.bits);
    let way = qcow2_own::own_way(image, g, guest)?;
    let o = power::rest(x, g.bits);
    qcow2_write::write_way(image, g, way, guest, backing, src, o as usize, allowance)
}

pub fn discard(
    image: &mut [u8],
    g: Geometry,
    guest: u64,
    allowance: usize,
) -> Result<Ended, Refusal>
    requires { Active g image.old }
    ensures { Done (clearing image.old (discard_list image.old guest)) allowance image.old result image.new }
{
    // the product of guest and the cluster size is not formed, since it could wrap
    if qcow2_own::disk_clusters(g.size, g.bits) <= guest {
        return Err(Cause::Range.into());
    }
    let way = qcow2_own::own_way(image, g, guest)?;
    qcow2_discard::discard_way(image, g, way, guest, allowance)
}

pub fn check(image: &[u8], scratch: &mut [u8], g: Geometry) -> Verdict
    requires { Active g image.now }
    ensures { (result ≡ checked image.now (length scratch.old)) × (scratch.new ≡ scratch_counted image.now scratch.old) }
{
    if scratch.len() / 2 < g.clusters {
        return Verdict::Refused(15);
    }
    qcow2_check::check(image, scratch, g)
}

pub fn repair(
    image: &mut [u8],
    scratch: &mut [u8],
    g: Geometry,
    allowance: usize,
) -> Result<Ended, Refusal>
    requires { Active g image.old }
    ensures { Done (clearing image.old (repair_list image.old (length scratch.old))) allowance image.old result image.new × (scratch.new ≡ scratch_counted image.old scratch.old) }
{
    if g.clusters > scratch.len() / 2 {
        return Err(Cause::Scratch.into());
    }
    let v = qcow2_check::check(image, scratch, g);
    qcow2_repair::verdict_repair(image, g, v, scratch, allowance)
}
