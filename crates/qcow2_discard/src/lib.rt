// A discard once the way is found. What it is to store is found before the first store.
#![tactic(auto)]

ghost use Rattle.std.specs.Prelude.{◌+◌, ◌^◌, ◌≤◌, [], ◌∷◌, ◌++◌, length, Ok};
ghost use Rattle.widths.specs.Width.{Inside};
ghost use Rattle.units.specs.Units.{count, entry};
ghost use Rattle.units.specs.Plan.{units as planned, Done};
ghost use Rattle.qcow2_spec.specs.Store.{clear_units, clearing, discard_way};
ghost use Rattle.qcow2_spec.specs.Opened.{Opened};
ghost use Rattle.qcow2_spec.specs.Ready.{Ready};
ghost use Rattle.qcow2_jobs.specs.Jobs.{FreedIn, freed_units};

use qcow2_jobs::releasing::Freed;
use qcow2_put::linking::Cell;
use qcow2_spec::refusal::Refusal;
use qcow2_spec::{Geometry, Way};
use units::Ended;

// The entry at a place becomes a number.
fn put_cleared(image: &mut [u8], at: usize, value: u64, allowance: usize) -> Ended
    requires { at + 8 ≤ length image.old }
    ensures { Done (planned (entry at value ∷ [])) allowance image.old (Ok result) image.new }
{
    units::store_entry(image, at, value, allowance);
    units::end_of(1, allowance)
}

// The entry at a place becomes a number, then a count becomes n: cut between the two, the cluster leaks and nothing is lost.
fn put_counted(
    image: &mut [u8],
    at: usize,
    value: u64,
    order: u32,
    count_at: usize,
    n: u64,
    allowance: usize,
) -> Ended
    requires { (at + 8 ≤ length image.old) × Inside order (length image.old) count_at }
    ensures { Done (planned (entry at value ∷ count (2 ^ order) count_at n ∷ [])) allowance image.old (Ok result) image.new }
{
    let clear = Cell::Entry(at, value);
    let lower = Cell::Count(order, count_at, n);
    qcow2_put::linking::put_two(image, clear, lower, allowance);
    units::end_of(2, allowance)
}

// What a discard stores.
fn put_freed(image: &mut [u8], freed: Freed, left: usize) -> Ended
    requires { FreedIn (length image.old) freed }
    ensures { Done (planned (freed_units freed)) left image.old (Ok result) image.new }
{
    match freed {
        Freed::Entry(at, value) => put_cleared(image, at, value, left),
        Freed::Both(at, value, order, count_at, n) => put_counted(
            image, at, value, order, count_at, n, left,
        ),
    }
}

// The clearing unit, then the discard's own.
fn store(image: &mut [u8], g: Geometry, freed: Freed, allowance: usize) -> Ended
    requires { Opened g image.old × FreedIn (length image.old) freed }
    ensures { Done (planned (clear_units image.old ++ freed_units freed)) allowance image.old (Ok result) image.new }
{
    let left = qcow2_clear::clear(image, g, allowance);
    let r = put_freed(image, freed, left);
    qcow2_clear::ended_after(r, left, allowance)
}

// A discard, with the way to the guest cluster: the field is cleared only where there is something to store.
pub fn discard_way(
    image: &mut [u8],
    g: Geometry,
    way: Way,
    guest: u64,
    allowance: usize,
) -> Result<Ended, Refusal>
    requires { Opened g image.old × Ready g image.old (Ok way) guest }
    ensures { Done (clearing image.old (discard_way image.old (Ok way))) allowance image.old result image.new }
{
    match qcow2_jobs::releasing::find_release(image, g, way, guest)? {
        None => Ok(units::end_of(0, allowance)),
        Some(freed) => Ok(store(image, g, freed, allowance)),
    }
}
