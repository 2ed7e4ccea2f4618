// What a call that is to be made changes: for a store that runs it in memory and brings the bytes to a file. Each judges the header afresh, takes any
// bytes and any numbers, and asks nothing of its caller. backing: the bytes of the backing file, as the call will be lent them.
#![tactic(auto)]

ghost use Rattle.std.specs.Prelude.{◌≡◌, List, ℕ, length};
ghost use Rattle.qcow2_spec.specs.Store.{clearing, write_list, write_plan, discard_list, discard_plan};
ghost use Rattle.qcow2_spec.specs.References.{scratch_counted, scratch_left};
ghost use Rattle.qcow2_spec.specs.Check.{repair_list, repair_plan};
ghost use Rattle.qcow2_spec.specs.Steps.{Listing};
ghost use Rattle.qcow2_spec.specs.Opened.{Active};

use qcow2_spec::Geometry;
use qcow2_spec::refusal::{Cause, Refusal};

fn write_in(image: &[u8], g: Geometry, x: u64, len: u64, rows: &mut [u64]) -> Result<usize, Refusal>
    requires { Active g image.now }
    ensures { (b d : List ℕ) → length d ≡ len → Listing image.now (clearing image.now (write_list b image.now x d)) rows.old result rows.new }
{
    if qcow2_own::past_write(g, x, len) {
        return Err(Cause::Range.into());
    }
    if len == 0 {
        return Ok(0);
    }
    let guest = power::quotient(x, g.bits);
    let way = qcow2_own::own_way(image, g, guest)?;
    let o = power::rest(x, g.bits) as usize;
    qcow2_ways::write_way(image, g, way, guest, o, len as usize, rows)
}

// The steps of a write of len bytes at guest offset x, four numbers each, as many as there is room for: how many, or the number of the write.
pub fn write_steps(
    image: &[u8],
    backing: &[u8],
    x: u64,
    len: u64,
    rows: &mut [u64],
) -> Result<usize, Refusal>
    ensures { (d : List ℕ) → length d ≡ len → Listing image.now (write_plan backing.now image.now x d) rows.old result rows.new }
{
    let g = qcow2_header::judge(image, backing.len() != 0)?;
    write_in(image, g, x, len, rows)
}

fn discard_in(image: &[u8], g: Geometry, guest: u64, rows: &mut [u64]) -> Result<usize, Refusal>
    requires { Active g image.now }
    ensures { Listing image.now (clearing image.now (discard_list image.now guest)) rows.old result rows.new }
{
    if qcow2_own::disk_clusters(g.size, g.bits) <= guest {
        return Err(Cause::Range.into());
    }
    let way = qcow2_own::own_way(image, g, guest)?;
    qcow2_ways::discard_way(image, g, way, guest, rows)
}

// The same for a discard.
pub fn discard_steps(
    image: &[u8],
    backing: &[u8],
    guest: u64,
    rows: &mut [u64],
) -> Result<usize, Refusal>
    ensures { Listing image.now (discard_plan backing.now image.now guest) rows.old result rows.new }
{
    let g = qcow2_header::judge(image, backing.len() != 0)?;
    discard_in(image, g, guest, rows)
}

fn repair_in(
    image: &[u8],
    g: Geometry,
    scratch: &mut [u8],
    rows: &mut [u64],
) -> Result<usize, Refusal>
    requires { Active g image.now }
    ensures { Listing image.now (clearing image.now (repair_list image.now (length scratch.old))) rows.old result rows.new × (scratch.new ≡ scratch_counted image.now scratch.old) }
{
    if scratch.len() / 2 < g.clusters {
        return Err(Cause::Scratch.into());
    }
    let v = qcow2_check::check(image, scratch, g);
    qcow2_ways::verdict_way(image, g, v, scratch, rows)
}

// The same for a repair. The scratch ends as the repair leaves it.
pub fn repair_steps(
    image: &[u8],
    backing: &[u8],
    scratch: &mut [u8],
    rows: &mut [u64],
) -> Result<usize, Refusal>
    ensures { Listing image.now (repair_plan backing.now image.now (length scratch.old)) rows.old result rows.new × (scratch.new ≡ scratch_left backing.now image.now scratch.old) }
{
    let g = qcow2_header::judge(image, backing.len() != 0)?;
    repair_in(image, g, scratch, rows)
}
