// The calls on a qcow2 image: read, write, discard, check and repair over lent bytes. Each judges the header afresh, takes any
// bytes and any numbers, and asks nothing of its caller. backing: the bytes of the image's backing file, a raw disk that no call writes to; where the
// image has none they are not looked at. What an answer means is in qcow2_spec/specs/.
#![tactic(auto)]

ghost use Rattle.std.specs.Prelude.{◌≡◌, suc, ◌/◌, length};
ghost use Rattle.units.specs.Plan.{Done};
ghost use Rattle.qcow2_spec.specs.Causes.{answer};
ghost use Rattle.qcow2_spec.specs.Guest.{translate as translation, read_number, read_into, in_place};
ghost use Rattle.qcow2_spec.specs.Runs.{list_runs, runs_into};
ghost use Rattle.qcow2_spec.specs.Store.{write_plan, discard_plan};
ghost use Rattle.qcow2_spec.specs.References.{scratch_left};
ghost use Rattle.qcow2_spec.specs.Check.{check as checked, repair_plan};

use qcow2_spec::refusal::Refusal;
use qcow2_spec::{Found, Verdict};
use units::Ended;

// Where guest offset x lies: a host offset, zeros, not allocated, or refused with a number from 1 to 13, 18, 19 or 21.
pub fn translate(image: &[u8], backing: &[u8], x: u64) -> Result<Found, Refusal>
    ensures { result ≡ translation backing.now image.now x }
{
    let geometry = qcow2_header::judge(image, backing.len() != 0)?;
    qcow2_guest::translated(image, geometry, x)
}

// Fills out with the guest bytes from x on, or is refused with a number from 1 to 13, 18, 19 or 21 and leaves it alone.
pub fn read(image: &[u8], backing: &[u8], x: u64, out: &mut [u8]) -> Result<(), Refusal>
    ensures { (result ≡ answer (read_number backing.now image.now 0 x (length out.old))) × (out.new ≡ read_into backing.now image.now 0 x out.old) }
{
    let g = qcow2_header::judge(image, backing.len() != 0)?;
    qcow2_read::read_into(image, backing, g, x, out)
}

// The same of the bytes that a snapshot keeps, numbered from 0 in the snapshot table; 11 where there is no such snapshot.
pub fn read_snapshot(
    image: &[u8],
    backing: &[u8],
    snapshot: u64,
    x: u64,
    out: &mut [u8],
) -> Result<(), Refusal>
    ensures { (result ≡ answer (read_number backing.now image.now (suc snapshot) x (length out.old))) × (out.new ≡ read_into backing.now image.now (suc snapshot) x out.old) }
{
    let g = qcow2_header::judge(image, backing.len() != 0)?;
    qcow2_calls::read_snapshot(image, backing, g, snapshot, x, out)
}

// The guest bytes themselves as a part of the image, from x to the end of its cluster or of the disk; empty where translation
// gives no host offset.
pub fn lookup<'a>(image: &'a [u8], backing: &[u8], x: u64) -> &'a [u8]
    ensures { result.now ≡ in_place backing.now image.now x }
{
    match qcow2_header::judge(image, backing.len() != 0) {
        Err(_) => &image[..0],
        Ok(g) => qcow2_read::part_in(image, g, x),
    }
}

// Lists the runs of the len guest bytes from x on in rows, three numbers a run, as many as there is room for, and answers how many;
// or is refused with a number from 1 to 11, 18, 19 or 21 and leaves rows alone.
pub fn runs(
    image: &[u8],
    backing: &[u8],
    x: u64,
    len: u64,
    rows: &mut [u64],
) -> Result<usize, Refusal>
    ensures { (result ≡ list_runs backing.now image.now 0 x len (length rows.old / 3)) × (rows.new ≡ runs_into backing.now image.now 0 x len rows.old) }
{
    let g = qcow2_header::judge(image, backing.len() != 0)?;
    qcow2_runs::listed(image, g, x, len, rows)
}

// Writes src at guest offset x, as far as the allowance of units goes: finished, stopped, or refused with a number from 1 to 14, 18, 19, 21 or 22.
pub fn write(
    image: &mut [u8],
    backing: &[u8],
    x: u64,
    src: &[u8],
    allowance: usize,
) -> Result<Ended, Refusal>
    ensures { Done (write_plan backing.now image.old x src.now) allowance image.old result image.new }
{
    let g = qcow2_header::judge(image, backing.len() != 0)?;
    qcow2_calls::write(image, backing, g, x, src, allowance)
}

// Discards a guest cluster, as far as the allowance goes: finished, stopped, or refused with a number from 1 to 13, 16 or 18 to 22.
pub fn discard(
    image: &mut [u8],
    backing: &[u8],
    guest: u64,
    allowance: usize,
) -> Result<Ended, Refusal>
    ensures { Done (discard_plan backing.now image.old guest) allowance image.old result image.new }
{
    let g = qcow2_header::judge(image, backing.len() != 0)?;
    qcow2_calls::discard(image, g, guest, allowance)
}

// Says sound, leaking or damaged, or a number from 1 to 10, 15, 18, 19 or 21. The scratch's first bytes end as the references, two
// bytes for each cluster.
pub fn check(image: &[u8], backing: &[u8], scratch: &mut [u8]) -> Verdict
    ensures { (result ≡ checked backing.now image.now (length scratch.old)) × (scratch.new ≡ scratch_left backing.now image.now scratch.old) }
{
    match qcow2_header::judge(image, backing.len() != 0) {
        Err(e) => Verdict::Refused(e.number()),
        Ok(g) => qcow2_calls::check(image, scratch, g),
    }
}

// Sets each count that differs from the references to them, as far as the allowance goes: finished, stopped, or refused with a number from
// 1 to 10, 15, 17 to 19 or 21. The scratch ends as a check leaves it, whatever the allowance.
pub fn repair(
    image: &mut [u8],
    backing: &[u8],
    scratch: &mut [u8],
    allowance: usize,
) -> Result<Ended, Refusal>
    ensures { Done (repair_plan backing.now image.old (length scratch.old)) allowance image.old result image.new × (scratch.new ≡ scratch_left backing.now image.old scratch.old) }
{
    let g = qcow2_header::judge(image, backing.len() != 0)?;
    qcow2_calls::repair(image, scratch, g, allowance)
}
