// The rows of one more call, after those that a batch holds.
#![tactic(auto)]

ghost use Rattle.std.specs.Prelude.{◌≡◌, List, ◌++◌, ℕ, ◌+◌, ◌*◌, ◌/◌, ◌≤◌, ◌<◌, min, length};
ghost use Rattle.qcow2_spec.specs.Header.{most_length, clusters};
ghost use Rattle.qcow2_spec.specs.References.{figures_of};
ghost use Rattle.qcow2_spec.specs.Store.{clear_units};
ghost use Rattle.qcow2_spec.specs.Check.{repair_units};
ghost use Rattle.qcow2_spec.specs.Steps.{extents, rows_of};
ghost use Rattle.qcow2_spec.specs.Opened.{Opened};
ghost use Rattle.qcow2_jobs.specs.Jobs.{JobIn, JobFresh, job_units, FreedIn, freed_units};
ghost use Rattle.qcow2_repair.specs.Leaks.{Leaking};
ghost use Rattle.qcow2_rows.specs.Rows.{Puts};
ghost use Rattle.qcow2_rows.specs.Own.{job_rows, freed_rows};
ghost use Rattle.qcow2_phases.specs.Ends.{Added};
ghost use Rattle.qcow2_added.specs.Falls.{Falls};

use qcow2_jobs::finding::Job;
use qcow2_jobs::releasing::Freed;
use qcow2_spec::Geometry;

// Where the numbers after k rows begin; where there are fewer rows, after those.
fn past(rows: &[u64], k: usize) -> usize
    ensures { result ≡ 4 * min (length rows.now / 4) k }
{
    4 * (rows.len() / 4).min(k)
}

// The rows of a write in front of the numbers that are lent; last: the phase of its last entry.
fn put_job(
    image: &[u8],
    g: Geometry,
    job: Job,
    c: usize,
    o: usize,
    len: usize,
    last: u64,
    rows: &mut [u64],
) -> usize
    requires { Opened g image.now × (JobIn most_length c job × (o + len ≤ c)) }
    ensures { Puts (rows_of 0 (extents (clear_units image.now)) ++ job_rows last job c o len) rows.old 0 rows.new result }
{
    let k = qcow2_rows::clear_row(image, g, rows);
    qcow2_rows::jobs::job_rows(rows, k, job, c, o, len, last)
}

// A write of len bytes, at least one, from byte o of its cluster of c bytes on: how many rows it has. What it writes changes none.
pub fn add_job(
    image: &[u8],
    g: Geometry,
    job: Job,
    c: usize,
    o: usize,
    len: usize,
    rows: &mut [u64],
    k: usize,
) -> usize
    requires { (Opened g image.now × (JobIn most_length c job × (o + len ≤ c))) × (JobFresh image.now c job × (0 < len)) }
    ensures { (under d : List ℕ) → length under ≡ c → length d ≡ len → Added image.now (clear_units image.now ++ job_units job c o under d) k rows.old rows.new result }
{
    let a = past(rows, k);
    let last = qcow2_shown::last_phase(&rows[..a], job, c);
    put_job(image, g, job, c, o, len, last, &mut rows[a..])
}

// The rows of a discard in front of the numbers that are lent; e: the phase of its entry.
fn put_freed(image: &[u8], g: Geometry, freed: Freed, e: u64, rows: &mut [u64]) -> usize
    requires { Opened g image.now × FreedIn most_length freed }
    ensures { Puts (rows_of 0 (extents (clear_units image.now)) ++ freed_rows e e 3 freed) rows.old 0 rows.new result }
{
    let k = qcow2_rows::clear_row(image, g, rows);
    qcow2_rows::jobs::freed_rows(rows, k, freed, e, e, 3)
}

// A discard.
pub fn add_freed(image: &[u8], g: Geometry, freed: Freed, rows: &mut [u64], k: usize) -> usize
    requires { (Opened g image.now × FreedIn most_length freed) × Falls image.now freed }
    ensures { Added image.now (clear_units image.now ++ freed_units freed) k rows.old rows.new result }
{
    let a = past(rows, k);
    let e = qcow2_shown::freed_phase(&rows[..a], freed);
    put_freed(image, g, freed, e, &mut rows[a..])
}

// The rows of a repair in front of the numbers that are lent.
fn put_counts(image: &[u8], g: Geometry, refs: &[u8], rows: &mut [u64]) -> usize
    requires { Leaking g image.now refs.now }
    ensures { Puts (rows_of 0 (extents (clear_units image.now)) ++ rows_of 3 (extents (repair_units image.now (figures_of image.now) 0 (clusters image.now)))) rows.old 0 rows.new result }
{
    let k = qcow2_rows::clear_row(image, g, rows);
    qcow2_rows::counts::count_rows(image, g, refs, rows, k, 3)
}

// A repair of a leaking image, with the figures in refs.
pub fn add_counts(image: &[u8], g: Geometry, refs: &[u8], rows: &mut [u64], k: usize) -> usize
    requires { Leaking g image.now refs.now }
    ensures { Added image.now (clear_units image.now ++ repair_units image.now (figures_of image.now) 0 (clusters image.now)) k rows.old rows.new result }
{
    let a = past(rows, k);
    put_counts(image, g, refs, &mut rows[a..])
}
