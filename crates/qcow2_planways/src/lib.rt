// A call that is planned into a batch, once the way is found: that the batch ends, or how many rows it holds then.
#![tactic(auto)]

ghost use Rattle.std.specs.Prelude.{◌≡◌, List, ℕ, ◌+◌, ◌^◌, ◌≤◌, ◌<◌, length, Ok};
ghost use Rattle.qcow2_spec.specs.Store.{clearing, write_way, discard_way};
ghost use Rattle.qcow2_spec.specs.Check.{verdict, verdict_plan};
ghost use Rattle.qcow2_spec.specs.Opened.{Opened, Active};
ghost use Rattle.qcow2_spec.specs.Ready.{Ready};
ghost use Rattle.qcow2_repair.specs.Leaks.{Figured};
ghost use Rattle.qcow2_batches.specs.Rows.{Planning};

use qcow2_batches::Planned;
use qcow2_repair::Mending;
use qcow2_spec::refusal::Refusal;
use qcow2_spec::{Geometry, Verdict, Way};

// A write of len bytes, at least one, from byte o of a guest cluster on, with the way to it. What lies underneath changes no row.
pub fn plan_write(
    image: &[u8],
    g: Geometry,
    way: Way,
    guest: u64,
    o: usize,
    len: usize,
    rows: &mut [u64],
    k: usize,
) -> Result<Planned, Refusal>
    requires { (Active g image.now × Ready g image.now (Ok way) guest) × ((o + len ≤ 2 ^ g.bits) × (0 < len)) }
    ensures { (backing d : List ℕ) → length d ≡ len → Planning image.now (clearing image.now (write_way backing image.now (Ok way) guest o d)) k rows.old result rows.new }
{
    let job = qcow2_jobs::finding::find_job(image, g, way, guest)?;
    let c = qcow2_counts::bytes_of(g.bits);
    let n = qcow2_added::add_job(image, g, job, c, o, len, rows, k);
    Ok(qcow2_phases::planned(rows, k, n))
}

// A discard, with the way to the guest cluster.
pub fn plan_discard(
    image: &[u8],
    g: Geometry,
    way: Way,
    guest: u64,
    rows: &mut [u64],
    k: usize,
) -> Result<Planned, Refusal>
    requires { Opened g image.now × Ready g image.now (Ok way) guest }
    ensures { Planning image.now (clearing image.now (discard_way image.now (Ok way))) k rows.old result rows.new }
{
    match qcow2_jobs::releasing::find_release(image, g, way, guest)? {
        None => Ok(qcow2_phases::planned(rows, k, 0)),
        Some(freed) => {
            let n = qcow2_added::add_freed(image, g, freed, rows, k);
            Ok(qcow2_phases::planned(rows, k, n))
        }
    }
}

// A repair by the verdict, with the figures that the check left in refs.
pub fn plan_repair(
    image: &[u8],
    g: Geometry,
    v: Verdict,
    refs: &[u8],
    rows: &mut [u64],
    k: usize,
) -> Result<Planned, Refusal>
    requires { (Opened g image.now × Figured image.now refs.now) × (v ≡ verdict image.now) }
    ensures { Planning image.now (clearing image.now (verdict_plan image.now v)) k rows.old result rows.new }
{
    match qcow2_repair::find_mending(v) {
        Err(n) => Err(Refusal::of(n)),
        Ok(Mending::Nothing) => Ok(qcow2_phases::planned(rows, k, 0)),
        Ok(Mending::Counts) => {
            let n = qcow2_added::add_counts(image, g, refs, rows, k);
            Ok(qcow2_phases::planned(rows, k, n))
        }
    }
}
