// A write once the way is found. What it is to store is found before the first store.
#![tactic(auto)]

ghost use Rattle.std.specs.Prelude.{◌≡◌, ◌+◌, ◌*◌, ◌^◌, ◌≤◌, ◌<◌, [], ◌++◌, length, if◌then◌else◌, Ok};
ghost use Rattle.units.specs.Plan.{units as planned, Done};
ghost use Rattle.fills.specs.Padded.{padded};
ghost use Rattle.qcow2_spec.specs.Header.{most_bits, most_reach, most_length};
ghost use Rattle.qcow2_spec.specs.Store.{clear_units, clearing, write_way};
ghost use Rattle.qcow2_spec.specs.Opened.{Opened, Active};
ghost use Rattle.qcow2_spec.specs.Ready.{Ready};
ghost use Rattle.qcow2_jobs.specs.Jobs.{JobIn, job_units};
ghost use Rattle.qcow2_write.specs.Base.{Base};

use qcow2_jobs::finding::Job;
use qcow2_spec::refusal::Refusal;
use qcow2_spec::{Geometry, Way};
use units::Ended;

// The bytes that lie under a guest cluster: a part of those that are lent, cut off at their end and at the disk's, or none where there is no
// backing file. Zeros follow them.
fn base_of<'a>(backing: &'a [u8], g: Geometry, guest: u64) -> &'a [u8]
    requires { (guest * 2 ^ g.bits < g.size) × ((g.bits ≤ most_bits) × (g.size ≤ most_reach)) }
    ensures { Base g backing.now guest result.now }
{
    if !g.backed {
        return &backing[0..0];
    }
    let c = qcow2_counts::bytes_of(g.bits);
    let x = guest as usize * c;
    let m = c.min(g.size as usize - x);
    let at = x.min(backing.len());
    let k = m.min(backing.len() - at);
    &backing[at..at + k]
}

// The same under a new cluster: none under a zero mark.
fn unmarked<'a>(base: &'a [u8], marked: bool) -> &'a [u8]
    ensures { result.now ≡ (if marked then [] else base.now) }
{
    if marked {
        return &base[0..0];
    }
    base
}

// A job with src from byte o of its cluster of c bytes on, and base and zeros underneath.
fn put_job(
    image: &mut [u8],
    job: Job,
    c: usize,
    base: &[u8],
    src: &[u8],
    o: usize,
    left: usize,
) -> Ended
    requires { (JobIn (length image.old) c job × ((o + length src.now ≤ c) × (length base.now ≤ c))) × (length image.old ≤ most_length) }
    ensures { Done (planned (job_units job c o (padded c base.now) src.now)) left image.old (Ok result) image.new }
{
    match job {
        Job::Bytes(p) => qcow2_put::linking::put_bytes(image, p + o, src, left),
        Job::Marked(at, p) => qcow2_put::linking::put_marked(image, at, p, c, src, o, left),
        Job::New(marked, order, count_at, at, p) => qcow2_put::linking::put_new(
            image,
            order,
            count_at,
            at,
            p,
            c,
            unmarked(base, marked),
            src,
            o,
            left,
        ),
        Job::Table(p) => qcow2_put::linking::put_table(image, p, c, base, src, o, left),
    }
}

// The clearing unit, then the job's.
fn store(
    image: &mut [u8],
    g: Geometry,
    job: Job,
    base: &[u8],
    src: &[u8],
    o: usize,
    allowance: usize,
) -> Ended
    requires { (Opened g image.old × JobIn (length image.old) (2 ^ g.bits) job) × (((o + length src.now ≤ 2 ^ g.bits) × (length base.now ≤ 2 ^ g.bits)) × (0 < length src.now)) }
    ensures { Done (planned (clear_units image.old ++ job_units job (2 ^ g.bits) o (padded (2 ^ g.bits) base.now) src.now)) allowance image.old (Ok result) image.new }
{
    let left = qcow2_clear::clear(image, g, allowance);
    let c = qcow2_counts::bytes_of(g.bits);
    let r = put_job(image, job, c, base, src, o, left);
    qcow2_clear::ended_after(r, left, allowance)
}

// A write of src, which is not empty, from byte o of a guest cluster on, with the way to it and the bytes of the backing file.
pub fn write_way(
    image: &mut [u8],
    g: Geometry,
    way: Way,
    guest: u64,
    backing: &[u8],
    src: &[u8],
    o: usize,
    allowance: usize,
) -> Result<Ended, Refusal>
    requires { ((Active g image.old × Ready g image.old (Ok way) guest) × (guest * 2 ^ g.bits < g.size)) × ((o + length src.now ≤ 2 ^ g.bits) × (0 < length src.now)) }
    ensures { Done (clearing image.old (write_way backing.now image.old (Ok way) guest o src.now)) allowance image.old result image.new }
{
    let job = qcow2_jobs::finding::find_job(image, g, way, guest)?;
    let base = base_of(backing, g, guest);
    Ok(store(image, g, job, base, src, o, allowance))
}
