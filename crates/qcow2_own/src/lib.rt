// What a write or a discard is asked for, and its way: what it changes must have no other reference.
#![tactic(auto)]

ghost use Rattle.std.specs.Prelude.{◌≡◌, ◌/◌, ◌^◌, ◌≤◌, ◌<◌, Ok};
ghost use Rattle.choice.specs.Pick.{ceil_div};
ghost use Rattle.qcow2_spec.specs.Header.{most_bits, most_reach, per_table, root_size};
ghost use Rattle.qcow2_spec.specs.Store.{own_slot, own_way};
ghost use Rattle.qcow2_spec.specs.Opened.{Active};
ghost use Rattle.qcow2_own.specs.Common.{common_row};
ghost use Rattle.qcow2_own.specs.Past.{past_write};

use qcow2_spec::refusal::{Cause, Refusal};
use qcow2_spec::{Geometry, Way};

// Whether len bytes at guest offset x run past the disk or past their guest cluster.
pub fn past_write(g: Geometry, x: u64, len: u64) -> bool
    requires { g.bits ≤ most_bits }
    ensures { result ≡ past_write g.size (2 ^ g.bits) x len }
{
    if g.size < x {
        return true;
    }
    if g.size - x < len {
        return true;
    }
    let o = power::rest(x, g.bits);
    power::power(g.bits) - o < len
}

// The guest clusters of a disk of size bytes, rounded up.
pub fn disk_clusters(size: u64, bits: u32) -> u64
    requires { (bits ≤ most_bits) × (size ≤ most_reach) }
    ensures { result ≡ ceil_div size (2 ^ bits) }
{
    power::quotient(size + (power::power(bits) - 1), bits)
}

// The same way, unless its entry has a place that others may refer to.
fn own_slot(w: Way) -> Result<Way, Refusal>
    ensures { result ≡ own_slot (Ok w) }
{
    match w {
        Way::NoTable => Ok(Way::NoTable),
        Way::Slot(at, e) => {
            if qcow2_entry::is_common(e) {
                return Err(Cause::Common.into());
            }
            Ok(Way::Slot(at, e))
        }
    }
}

// Whether the L1 entry of a guest cluster is good and has a place that others may refer to.
fn common_row(image: &[u8], g: Geometry, guest: u64) -> bool
    requires { Active g image.now × (guest / per_table image.now < root_size image.now 0) }
    ensures { result ≡ common_row image.now guest }
{
    let e = qcow2_guest::l1_entry(image, g, guest);
    if qcow2_entry::good_l1(e, image.len() as u64, g.bits) {
        return qcow2_entry::is_common(e);
    }
    false
}

// The way to a guest cluster of the active table, unless an entry on it has a place that others may refer to.
pub fn own_way(image: &[u8], g: Geometry, guest: u64) -> Result<Way, Refusal>
    requires { Active g image.now × (guest / per_table image.now < root_size image.now 0) }
    ensures { result ≡ own_way image.now guest }
{
    if common_row(image, g, guest) {
        return Err(Cause::Common.into());
    }
    own_slot(qcow2_guest::way_to(image, g, guest)?)
}
