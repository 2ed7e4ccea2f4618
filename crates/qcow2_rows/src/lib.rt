// The steps of a call as rows of four numbers: where the bytes begin that it changes, how many they are, the units that store them, and their epoch.
#![tactic(auto)]

ghost use Rattle.std.specs.Prelude.{◌≡◌, [], ◌∷◌, ◌+◌, ◌/◌, ◌^◌, ◌≤◌};
ghost use Rattle.widths.specs.Width.{span};
ghost use Rattle.qcow2_spec.specs.Header.{most_length, most_order};
ghost use Rattle.qcow2_spec.specs.Store.{clear_units};
ghost use Rattle.qcow2_spec.specs.Steps.{extents, rows_of};
ghost use Rattle.qcow2_spec.specs.Opened.{Opened};
ghost use Rattle.qcow2_rows.specs.Rows.{Puts};

use qcow2_spec::Geometry;

pub mod counts;
pub mod jobs;

// One row more, where there is room for it. Tells how many are put then.
pub fn put_row(rows: &mut [u64], k: usize, at: usize, len: usize, made: usize, epoch: u64) -> usize
    requires { k ≤ most_length }
    ensures { (result ≡ k + 1) × Puts (at ∷ len ∷ made ∷ epoch ∷ []) rows.old k rows.new result }
{
    if k < rows.len() / 4 {
        rows[4 * k] = at as u64;
        rows[4 * k + 1] = len as u64;
        rows[4 * k + 2] = made as u64;
        rows[4 * k + 3] = epoch;
    }
    k + 1
}

// The row of an entry.
pub(crate) fn put_entry(rows: &mut [u64], k: usize, at: usize, epoch: u64) -> usize
    requires { k ≤ most_length }
    ensures { (result ≡ k + 1) × Puts (at ∷ 8 ∷ 1 ∷ epoch ∷ []) rows.old k rows.new result }
{
    put_row(rows, k, at, 8, 1, epoch)
}

// The bytes of a count of 2 to the power order bits.
pub fn span_of(order: u32) -> usize
    requires { order ≤ most_order }
    ensures { result ≡ span (2 ^ order) }
{
    (power::power(order) as usize + 7) / 8
}

// The row of a count of 2 to the power order bits, the lowest of which stands at a place.
pub(crate) fn put_count(rows: &mut [u64], k: usize, order: u32, at: usize, epoch: u64) -> usize
    requires { (k ≤ most_length) × (order ≤ most_order) }
    ensures { (result ≡ k + 1) × Puts (at / 8 ∷ span (2 ^ order) ∷ 1 ∷ epoch ∷ []) rows.old k rows.new result }
{
    put_row(rows, k, at / 8, span_of(order), 1, epoch)
}

// The row of the clearing unit, where there is one: the first.
pub fn clear_row(image: &[u8], g: Geometry, rows: &mut [u64]) -> usize
    requires { Opened g image.now }
    ensures { (result ≤ 1) × Puts (rows_of 0 (extents (clear_units image.now))) rows.old 0 rows.new result }
{
    if g.version != 3 {
        return 0;
    }
    if endian::load64(image, 88) == 0 {
        return 0;
    }
    put_entry(rows, 0, 88, 0)
}
