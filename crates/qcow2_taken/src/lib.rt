// Whether clusters that were appended to an image can be taken in: the first of the numbers 1 to 8, 18, 9, 10, 19 and 21 that applies, where 10 is
// judged with the bytes that the image had before, old.
#![tactic(auto)]

ghost use Rattle.std.specs.Prelude.{◌≡◌, ◌+◌, ◌-◌, ◌*◌, ◌^◌, ◌≤◌, length};
ghost use Rattle.qcow2_spec.specs.Header.{most_bits};
ghost use Rattle.qcow2_spec.specs.Causes.{answer};
ghost use Rattle.qcow2_longer.specs.Extend.{longer_number, extend_number};
ghost use Rattle.qcow2_fields.specs.Fields.{Read};
ghost use Rattle.qcow2_taken.specs.Taking.{bad_length, Entries, good_entries, Held, bad_from, later_number};

use qcow2_spec::Geometry;
use qcow2_spec::refusal::{Cause, Refusal};

mod new_entries;

// Whether the old length is below 512, above n or no multiple of the cluster size.
fn bad_old(n: u64, old: u64, bits: u32) -> bool
    requires { bits ≤ most_bits }
    ensures { result ≡ bad_length (2 ^ bits) n old }
{
    if old < 512 {
        return true;
    }
    if n < old {
        return true;
    }
    power::rest(old, bits) != 0
}

// The bytes that the counts of one block cover, from one new block to the next.
pub fn span_of(bits: u32, order: u32) -> u64
    requires { (order ≤ bits) × (bits ≤ most_bits) }
    ensures { (result ≡ 2 ^ (bits + 3 - order) * 2 ^ bits) × (result ≤ 35184372088832) }
{
    power::power(bits + 3 - order) * power::power(bits)
}

// Whether the entries of earlier blocks name blocks, those of new ones keep their rule, and the later ones are 0.
fn good_entries(
    table: &[u8],
    count: usize,
    from: usize,
    blocks: usize,
    n: u64,
    bits: u32,
    span: u64,
) -> bool
    requires { Entries (length table.now) count from blocks n bits span }
    ensures { result ≡ good_entries (2 ^ bits) n from blocks span count table.now }
{
    if qcow2_tables::entries::all_named(table, from, n, bits) {
        if new_entries::all_new(table, from, blocks, span) {
            let at = 8 * blocks;
            let end = 8 * count;
            return blank::all_clear(&table[at..end]);
        }
        return false;
    }
    false
}

// Whether an entry of the refcount table breaks its rule, with the earlier blocks up to from. Its place is worked out as a multiple of the cluster
// size, so that it stays one number in the machine code.
fn bad_from(image: &[u8], g: Geometry, from: usize) -> bool
    requires { Held g image.now × (from ≤ g.blocks) }
    ensures { result ≡ bad_from image.now from }
{
    let c = power::power(g.bits) as usize;
    let at = power::quotient(g.tableat as u64, g.bits) as usize * c;
    let count = g.tableclusters * (c / 8);
    let span = span_of(g.bits, g.order);
    !good_entries(
        &image[at..],
        count,
        from,
        g.blocks,
        image.len() as u64,
        g.bits,
        span,
    )
}

// 10: the old length, and the entries of the refcount table.
fn check_longer(image: &[u8], g: Geometry, old: u64) -> Result<(), Refusal>
    requires { Held g image.now }
    ensures { result ≡ answer (longer_number image.now old) }
{
    if bad_old(image.len() as u64, old, g.bits) {
        return Err(Cause::TableEntry.into());
    }
    let from = qcow2_fields::block_count(old, g.bits, g.order) as usize;
    if bad_from(image, g, from) {
        return Err(Cause::TableEntry.into());
    }
    Ok(())
}

// 19: the backing file's name, of which no bytes are needed. 21: the snapshot table.
fn check_later(image: &[u8], g: Geometry) -> Result<(), Refusal>
    requires { Read g image.now }
    ensures { result ≡ answer (later_number image.now) }
{
    if qcow2_backing::bad_backing(image, g, true) {
        return Err(Cause::Backing.into());
    }
    qcow2_snapshots::check_snapshots(image, g.snapshots, g.snapshotsat, g.bits)
}

// The number of any bytes and any old length; without one they can be taken in.
pub fn check_extend(image: &[u8], old: u64) -> Result<(), Refusal>
    ensures { result ≡ answer (extend_number image.now old) }
{
    qcow2_headed::check_header(image)?;
    let g = qcow2_headed::gather(image);
    check_longer(image, g, old)?;
    check_later(image, g)
}
