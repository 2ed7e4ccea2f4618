// What a discard is to store, once the way is found: the places, the entry and the count, worked out from the image before the first store.
ghost use Rattle.std.specs.Prelude.{◌≡◌, ◌&&◌, ◌+◌, ◌-◌, ◌≤◌, ◌<◌, [], ◌∷◌, eqb, length, if◌then◌else◌, Ok};
ghost use Rattle.units.specs.Units.{entry};
ghost use Rattle.units.specs.Plan.{refused, units as planned};
ghost use Rattle.qcow2_spec.specs.Counts.{count_of, set_count};
ghost use Rattle.qcow2_spec.specs.Store.{discard_way};
ghost use Rattle.qcow2_spec.specs.Opened.{Opened};
ghost use Rattle.qcow2_spec.specs.Ready.{Slotted, Ready};
ghost use Rattle.qcow2_spec.specs.declared.Way.TheVariants.{NoTable, Slot};
ghost use Rattle.qcow2_jobs.specs.Jobs.{Releases};

use qcow2_spec::refusal::{Cause, Refusal};
use qcow2_spec::{Geometry, Way};

// The entry at a place becomes a number; or that, and then the count of some width at another, a bit's, becomes a number.
#[derive(Clone, Copy)]
pub enum Freed {
    Entry(usize, u64),
    Both(usize, u64, u32, usize, u64),
}

// What is to be stored, if anything, where the entry at a place, which names cluster k, is given up and becomes a number.
fn find_count(
    image: &[u8],
    g: Geometry,
    at: usize,
    value: u64,
    k: usize,
) -> Result<Option<Freed>, Refusal>
    requires { Opened g image.now × ((at + 8 ≤ length image.now) × (k < g.clusters)) }
    ensures { Releases (length image.now) result (if eqb (count_of image.now k) 0 then refused 16 else planned (entry at value ∷ set_count image.now k (count_of image.now k - 1) ∷ [])) }
{
    let count_at = qcow2_counts::count_at(image, g, k);
    let n = widths::load(image, g.order, count_at);
    if n == 0 {
        return Err(Cause::Uncounted.into());
    }
    Ok(Some(Freed::Both(at, value, g.order, count_at, n - 1)))
}

// The entry that a discard leaves: 0, or over a backing file, which 0 would show again, the zero mark alone.
fn cleared(g: Geometry) -> u64
    ensures { result ≡ (if g.backed then 1 else 0) }
{
    if g.backed { 1 } else { 0 }
}

// Whether a zero mark is needed and there is none: over a backing file in version 2.
fn lacks_mark(g: Geometry) -> bool
    ensures { result ≡ (g.backed && eqb g.version 2) }
{
    if g.backed {
        return g.version == 2;
    }
    false
}

// A discard where the entry e stands at a place.
fn find_slot(image: &[u8], g: Geometry, at: usize, e: u64) -> Result<Option<Freed>, Refusal>
    requires { Slotted g image.now at e }
    ensures { Releases (length image.now) result (discard_way image.now (Ok (Slot at e))) }
{
    if lacks_mark(g) {
        return Err(Cause::NoMark.into());
    }
    let value = cleared(g);
    if e == value {
        return Ok(None);
    }
    let p = qcow2_entry::place_of(e);
    if p == 0 {
        return Ok(Some(Freed::Entry(at, value)));
    }
    find_count(image, g, at, value, power::quotient(p, g.bits) as usize)
}

// A discard where there is no L2 table: over a backing file no entry can hide it.
fn find_none(image: &[u8], g: Geometry) -> Result<Option<Freed>, Refusal>
    requires { Opened g image.now }
    ensures { Releases (length image.now) result (discard_way image.now (Ok NoTable)) }
{
    if g.backed {
        Err(Cause::NoMark.into())
    } else {
        Ok(None)
    }
}

// A discard, with the way to the guest cluster.
pub fn find_release(
    image: &[u8],
    g: Geometry,
    way: Way,
    guest: u64,
) -> Result<Option<Freed>, Refusal>
    requires { Opened g image.now × Ready g image.now (Ok way) guest }
    ensures { Releases (length image.now) result (discard_way image.now (Ok way)) }
{
    match way {
        Way::NoTable => find_none(image, g),
        Way::Slot(at, e) => find_slot(image, g, at, e),
    }
}
