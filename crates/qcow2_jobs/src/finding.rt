// What a write is to store, once the way is found: every place and value, worked out from the image before the first store.
ghost use Rattle.std.specs.Prelude.{◌≡◌, ℕ, ◌+◌, ◌^◌, ◌≤◌, ◌<◌, length, Ok};
ghost use Rattle.endian.specs.Big.{splice};
ghost use Rattle.qcow2_spec.specs.Counts.{free_from};
ghost use Rattle.qcow2_spec.specs.Guest.{l1_entry_at};
ghost use Rattle.qcow2_spec.specs.Store.{backing_cluster, new_bytes, write_slot, write_new, write_table, write_way};
ghost use Rattle.qcow2_spec.specs.Opened.{Opened, Active};
ghost use Rattle.qcow2_jobs.specs.Jobs.{Decides};
ghost use Rattle.qcow2_put.specs.Links.{Linked, places};
ghost use Rattle.qcow2_spec.specs.Ready.{Slotted, Ready};

use qcow2_put::linking::Places;
use qcow2_spec::refusal::{Cause, Refusal};
use qcow2_spec::{Geometry, Way};

// Bytes into the cluster at a place; a whole cluster at a place and its entry's mark, given as entry and place; a new cluster, given as
// whether its entry is a zero mark, its count's width and place, entry and place; or a new L2 table too.
#[derive(Clone, Copy)]
pub enum Job {
    Bytes(usize),
    Marked(usize, usize),
    New(bool, u32, usize, usize, usize),
    Table(Places),
}

// Each of these finds what is to be stored, or why nothing can be.

// A write into a cluster whose entry e has no place yet.
fn find_new(image: &[u8], g: Geometry, entry_at: usize, e: u64) -> Result<Job, Refusal>
    requires { Opened g image.now × (entry_at + 8 ≤ length image.now) }
    ensures { (guest : ℕ) → Decides image.now (2 ^ g.bits) guest result (λ b o d. write_new image.now entry_at (free_from image.now 0) (new_bytes b image.now guest e o d)) }
{
    let k = qcow2_free::free_from(image, g, 0);
    if g.clusters <= k {
        return Err(Cause::NoRoom.into());
    }
    let count_at = qcow2_counts::count_at(image, g, k);
    let job = Job::New(
        qcow2_entry::has_mark(e),
        g.order,
        count_at,
        entry_at,
        k * qcow2_counts::bytes_of(g.bits),
    );
    Ok(job)
}

// A write where the entry e stands at a place.
fn find_slot(image: &[u8], g: Geometry, entry_at: usize, e: u64) -> Result<Job, Refusal>
    requires { Slotted g image.now entry_at e }
    ensures { (guest : ℕ) → Decides image.now (2 ^ g.bits) guest result (λ b. write_slot b image.now guest entry_at e) }
{
    let p = qcow2_entry::place_of(e) as usize;
    if p == 0 {
        return find_new(image, g, entry_at, e);
    }
    if qcow2_entry::has_mark(e) {
        return Ok(Job::Marked(entry_at, p));
    }
    Ok(Job::Bytes(p))
}

// The places where cluster t is to be the L2 table of a guest cluster and k its data.
fn find_places(image: &[u8], g: Geometry, guest: u64, t: usize, k: usize) -> Places
    requires { (Active g image.now × (l1_entry_at image.now 0 guest + 8 ≤ length image.now)) × ((t < g.clusters) × (k < g.clusters)) }
    ensures { (result ≡ places image.now guest t k) × Linked (length image.now) result (2 ^ g.bits) }
{
    let c = qcow2_counts::bytes_of(g.bits);
    let table = t * c;
    Places {
        order: g.order,
        tablecount: qcow2_counts::count_at(image, g, t),
        table,
        datacount: qcow2_counts::count_at(image, g, k),
        place: k * c,
        slot: table + 8 * (power::rest(guest, g.bits - 3) as usize),
        link: g.l1at + 8 * (power::quotient(guest, g.bits - 3) as usize),
    }
}

// A write where there is no L2 table.
fn find_table(image: &[u8], g: Geometry, guest: u64) -> Result<Job, Refusal>
    requires { Active g image.now × (l1_entry_at image.now 0 guest + 8 ≤ length image.now) }
    ensures { Decides image.now (2 ^ g.bits) guest result (λ b o d. write_table image.now guest (free_from image.now 0) (free_from image.now (free_from image.now 0 + 1)) (splice (backing_cluster b image.now guest) o d)) }
{
    let t = qcow2_free::free_from(image, g, 0);
    let k = qcow2_free::free_from(image, g, t + 1);
    if g.clusters <= k {
        return Err(Cause::NoRoom.into());
    }
    Ok(Job::Table(find_places(image, g, guest, t, k)))
}

// A write, with the way to the guest cluster.
pub fn find_job(image: &[u8], g: Geometry, way: Way, guest: u64) -> Result<Job, Refusal>
    requires { Active g image.now × Ready g image.now (Ok way) guest }
    ensures { Decides image.now (2 ^ g.bits) guest result (λ b. write_way b image.now (Ok way) guest) }
{
    match way {
        Way::NoTable => find_table(image, g, guest),
        Way::Slot(at, e) => find_slot(image, g, at, e),
    }
}
