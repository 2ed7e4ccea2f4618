// The header's number alone: the first of the numbers 1 to 8, 18 and 9 that applies, with no look at the refcount table's entries.
#![tactic(auto)]

ghost use Rattle.std.specs.Prelude.{◌≡◌};
ghost use Rattle.qcow2_spec.specs.Header.{header_number};
ghost use Rattle.qcow2_spec.specs.Causes.{answer};
ghost use Rattle.qcow2_limits.specs.Limits.{Known};
ghost use Rattle.qcow2_fields.specs.Fields.{Supported, Read};
ghost use Rattle.qcow2_headed.specs.Numbers.{form_number, place_number};

use qcow2_spec::Geometry;
use qcow2_spec::refusal::{Cause, Refusal};

const MAGIC: u32 = 0x514649FB;

// What the header gives for the active L1 table, as qcow2_fields::gather has it: that one is called from one place alone, so that it becomes a part of
// judge in the machine code.
pub fn gather(image: &[u8]) -> Geometry
    requires { Supported image.now }
    ensures { Read result image.now }
{
    let n = image.len() as u64;
    let bits = endian::load32(image, 20);
    let order = qcow2_fields::order_of(image);
    Geometry {
        version: endian::load32(image, 4),
        bits,
        order,
        clusters: power::quotient(n, bits) as usize,
        root: 0,
        size: endian::load64(image, 24),
        l1size: endian::load32(image, 36) as usize,
        l1at: endian::load64(image, 40) as usize,
        tableat: endian::load64(image, 48) as usize,
        tableclusters: endian::load32(image, 56) as usize,
        blocks: qcow2_fields::block_count(n, bits, order) as usize,
        snapshots: endian::load32(image, 60) as usize,
        snapshotsat: endian::load64(image, 64) as usize,
        backed: endian::load64(image, 8) != 0,
    }
}

// 8, 18 and 9: the size of the disk, and the places of the tables.
fn check_places(image: &[u8], g: Geometry) -> Result<(), Refusal>
    requires { Read g image.now }
    ensures { result ≡ answer (place_number image.now) }
{
    if qcow2_limits::oversize(g) {
        return Err(Cause::DiskSize.into());
    }
    if qcow2_limits::part_sector(g.size) {
        return Err(Cause::Sectors.into());
    }
    if qcow2_tables::places::misplaced_tables(g, image.len() as u64) {
        return Err(Cause::Tables.into());
    }
    Ok(())
}

// 5 to 7, and those: the length, what is not supported, incompatible features.
fn check_form(image: &[u8]) -> Result<(), Refusal>
    requires { Known image.now }
    ensures { result ≡ answer (form_number image.now) }
{
    if qcow2_limits::odd_length(image) {
        return Err(Cause::Length.into());
    }
    if qcow2_fields::has_extras(image) {
        return Err(Cause::Unsupported.into());
    }
    if qcow2_fields::has_features(image) {
        return Err(Cause::Features.into());
    }
    let g = gather(image);
    check_places(image, g)
}

// The number of any bytes, where one applies.
pub fn check_header(image: &[u8]) -> Result<(), Refusal>
    ensures { result ≡ answer (header_number image.now) }
{
    if qcow2_limits::too_short(image.len()) {
        return Err(Cause::TooShort.into());
    }
    if endian::load32(image, 0) != MAGIC {
        return Err(Cause::Magic.into());
    }
    if !qcow2_fields::is_version(endian::load32(image, 4)) {
        return Err(Cause::Version.into());
    }
    if qcow2_limits::wrong_bits(endian::load32(image, 20)) {
        return Err(Cause::ClusterBits.into());
    }
    check_form(image)
}
