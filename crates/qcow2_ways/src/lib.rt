// The steps of a call once the way is found, over an image that can't be changed: rows of the bytes that it changes, epoch by epoch.
#![tactic(auto)]

ghost use Rattle.std.specs.Prelude.{◌≡◌, List, ◌++◌, ℕ, ◌+◌, ◌/◌, ◌^◌, ◌≤◌, ◌<◌, min, length, Ok};
ghost use Rattle.units.specs.Plan.{units};
ghost use Rattle.qcow2_spec.specs.Header.{clusters};
ghost use Rattle.qcow2_spec.specs.References.{figures_of};
ghost use Rattle.qcow2_spec.specs.Store.{clear_units, clearing, write_way, discard_way};
ghost use Rattle.qcow2_spec.specs.Check.{repair_units, verdict, verdict_plan};
ghost use Rattle.qcow2_spec.specs.Steps.{Listing};
ghost use Rattle.qcow2_spec.specs.Opened.{Opened, Active};
ghost use Rattle.qcow2_spec.specs.Ready.{Ready};
ghost use Rattle.qcow2_repair.specs.Leaks.{Figured, Leaking};

use qcow2_repair::Mending;
use qcow2_spec::refusal::Refusal;
use qcow2_spec::{Geometry, Verdict, Way};

// How many of k rows there was room for.
fn listed(rows: &[u64], k: usize) -> usize
    ensures { result ≡ min (length rows.now / 4) k }
{
    (rows.len() / 4).min(k)
}

// A write of len bytes, at least one, from byte o of a guest cluster on, with the way to it. What lies underneath changes no row.
pub fn write_way(
    image: &[u8],
    g: Geometry,
    way: Way,
    guest: u64,
    o: usize,
    len: usize,
    rows: &mut [u64],
) -> Result<usize, Refusal>
    requires { (Active g image.now × Ready g image.now (Ok way) guest) × ((o + len ≤ 2 ^ g.bits) × (0 < len)) }
    ensures { (backing d : List ℕ) → length d ≡ len → Listing image.now (clearing image.now (write_way backing image.now (Ok way) guest o d)) rows.old result rows.new }
{
    let job = qcow2_jobs::finding::find_job(image, g, way, guest)?;
    let k = qcow2_rows::clear_row(image, g, rows);
    let c = qcow2_counts::bytes_of(g.bits);
    let n = qcow2_rows::jobs::job_rows(rows, k, job, c, o, len, 2);
    Ok(listed(rows, n))
}

// A discard, with the way to the guest cluster.
pub fn discard_way(
    image: &[u8],
    g: Geometry,
    way: Way,
    guest: u64,
    rows: &mut [u64],
) -> Result<usize, Refusal>
    requires { Opened g image.now × Ready g image.now (Ok way) guest }
    ensures { Listing image.now (clearing image.now (discard_way image.now (Ok way))) rows.old result rows.new }
{
    match qcow2_jobs::releasing::find_release(image, g, way, guest)? {
        None => Ok(0),
        Some(freed) => {
            let k = qcow2_rows::clear_row(image, g, rows);
            let n = qcow2_rows::jobs::freed_rows(rows, k, freed, 2, 1, 2);
            Ok(listed(rows, n))
        }
    }
}

// A leaking image, with the figures in refs.
fn leaks(image: &[u8], g: Geometry, refs: &[u8], rows: &mut [u64]) -> usize
    requires { Leaking g image.now refs.now }
    ensures { Listing image.now (units (clear_units image.now ++ repair_units image.now (figures_of image.now) 0 (clusters image.now))) rows.old (Ok result) rows.new }
{
    let k = qcow2_rows::clear_row(image, g, rows);
    let n = qcow2_rows::counts::count_rows(image, g, refs, rows, k, 1);
    listed(rows, n)
}

// A repair by the verdict, with the figures that the check left in refs.
pub fn verdict_way(
    image: &[u8],
    g: Geometry,
    v: Verdict,
    refs: &[u8],
    rows: &mut [u64],
) -> Result<usize, Refusal>
    requires { (Opened g image.now × Figured image.now refs.now) × (v ≡ verdict image.now) }
    ensures { Listing image.now (clearing image.now (verdict_plan image.now v)) rows.old result rows.new }
{
    match qcow2_repair::find_mending(v) {
        Err(k) => Err(Refusal::of(k)),
        Ok(Mending::Nothing) => Ok(0),
        Ok(Mending::Counts) => Ok(leaks(image, g, refs, rows)),
    }
}
