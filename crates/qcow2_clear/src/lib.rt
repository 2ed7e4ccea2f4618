// The unit that clears the autoclear field, which comes before all others of a call.
#![tactic(auto)]

ghost use Rattle.std.specs.Prelude.{◌≡◌, ◌-◌, ◌≤◌, length, take, Ok};
ghost use Rattle.units.specs.Units.{apply_all};
ghost use Rattle.qcow2_spec.specs.Header.{version as version_of};
ghost use Rattle.qcow2_spec.specs.Store.{clear_units};
ghost use Rattle.qcow2_spec.specs.Opened.{Opened};
ghost use Rattle.qcow2_clear.specs.Ends.{Within, whole_end};

use qcow2_spec::Geometry;
use units::Ended;

// Clears the field of version 3 where it is not zero, and returns what is left of the allowance.
pub fn clear_field(image: &mut [u8], version: u32, allowance: usize) -> usize
    requires { (512 ≤ length image.old) × (version ≡ version_of image.old) }
    ensures { (result ≡ allowance - length (clear_units image.old)) × (image.new ≡ apply_all (take allowance (clear_units image.old)) image.old) }
{
    if version != 3 {
        return allowance;
    }
    let features = endian::load64(image, 88);
    if features == 0 {
        return allowance;
    }
    units::store_entry(image, 88, 0, allowance)
}

// The same in an accepted image.
pub fn clear(image: &mut [u8], g: Geometry, allowance: usize) -> usize
    requires { Opened g image.old }
    ensures { (result ≡ allowance - length (clear_units image.old)) × (image.new ≡ apply_all (take allowance (clear_units image.old)) image.old) }
{
    clear_field(image, g.version, allowance)
}

// How the whole list ended, by how the units after the clearing one ended within what it left of the allowance.
pub fn ended_after(rest: Ended, left: usize, allowance: usize) -> Ended
    requires { (left ≤ allowance) × Within (Ok rest) left }
    ensures { Ok result ≡ whole_end (Ok rest) left allowance }
{
    match rest {
        Ended::Finished(n) => Ended::Finished(allowance - left + n),
        Ended::Stopped(_) => Ended::Stopped(allowance),
    }
}

// The same where the later part may be refused, and the whole list is then.
pub fn whole_end(rest: Result<Ended, u8>, left: usize, allowance: usize) -> Result<Ended, u8>
    requires { (left ≤ allowance) × Within rest left }
    ensures { result ≡ whole_end rest left allowance }
{
    Ok(ended_after(rest?, left, allowance))
}
