// The backing file: whether number 19 applies, and where the name stands.
#![tactic(auto)]

ghost use Rattle.std.specs.Prelude.{◌≡◌, ◌^◌, ◌≤◌, length};
ghost use Rattle.qcow2_spec.specs.Header.{most_bits, cluster_size, backing_offset, bad_name};
ghost use Rattle.qcow2_spec.specs.Opened.{Opened};
ghost use Rattle.qcow2_fields.specs.Fields.{Read};
ghost use Rattle.qcow2_backing.specs.Backing.{bad_backing, shown_length};

use qcow2_spec::Geometry;

// Whether the name is empty, too long, or not wholly inside the first cluster. Its offset may be any number.
fn bad_name(image: &[u8], bits: u32) -> bool
    requires { (512 ≤ length image.now) × ((bits ≤ most_bits) × (cluster_size image.now ≡ 2 ^ bits)) }
    ensures { result ≡ bad_name image.now }
{
    let len = endian::load32(image, 16);
    if qcow2_limits::wrong_name_length(len) {
        return true;
    }
    power::past(power::power(bits), endian::load64(image, 8), len as u64)
}

// Whether there is a backing file whose name is bad, or none of whose bytes are lent.
pub fn bad_backing(image: &[u8], g: Geometry, lent: bool) -> bool
    requires { Read g image.now }
    ensures { result ≡ bad_backing lent image.now }
{
    if g.backed {
        if bad_name(image, g.bits) {
            return true;
        }
        return !lent;
    }
    false
}

// Where the name of an accepted image stands; 0: it has no backing file.
pub fn name_at(image: &[u8], g: Geometry) -> u64
    requires { Opened g image.now }
    ensures { result ≡ backing_offset image.now }
{
    endian::load64(image, 8)
}

// The bytes of that name. Without a backing file the field is not looked at.
pub fn name_len(image: &[u8], g: Geometry) -> u64
    requires { Opened g image.now }
    ensures { result ≡ shown_length image.now }
{
    if g.backed {
        return endian::load32(image, 16) as u64;
    }
    0
}
