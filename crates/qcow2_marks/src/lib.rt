// Marks: bit 63 of the entries of good tables against the figures of a scratch of two bytes for each cluster.
#![tactic(auto)]

ghost use Rattle.std.specs.Prelude.{◌≡◌, true, ◌+◌, ◌*◌, ◌/◌, ◌^◌, ◌≤◌, ◌<◌, eqb, length, if◌then◌else◌};
ghost use Rattle.choice.specs.Pick.{all};
ghost use Rattle.tally.specs.States.{twos};
ghost use Rattle.qcow2_spec.specs.Header.{most_bits};
ghost use Rattle.qcow2_spec.specs.References.{l2_entries};
ghost use Rattle.qcow2_spec.specs.Check.{table_good, entry_good, wrong_marks};
ghost use Rattle.qcow2_spec.specs.Opened.{Opened};
ghost use Rattle.qcow2_refs.specs.Walks.{row_at};
ghost use Rattle.qcow2_marks.specs.Marks.{right, Fair, AllFair, Rights, unharmed, UnharmedTo, GoodTo};

use qcow2_spec::Geometry;

// What bit 63 is to be by a figure.
fn mark_of(figure: u16) -> u64
    ensures { result ≡ (if eqb figure 1 then 1 else 0) }
{
    if figure == 1 { 1 } else { 0 }
}

// Whether the mark of a good entry is right. Without bit 63 such an entry is less than a cluster only where it has no place.
pub fn mark_right(e: u64, scratch: &[u8], bits: u32) -> bool
    requires { ((9 ≤ bits) × (bits ≤ most_bits)) × Fair (2 ^ bits) (length scratch.now / 2) e }
    ensures { result ≡ right (2 ^ bits) scratch.now e }
{
    let c = power::quotient(qcow2_plain::twice(e), bits + 1) as usize;
    if c == 0 {
        return true;
    }
    e / 9223372036854775808 == mark_of(endian::load16(scratch, 2 * c))
}

// How far the marks of 64 entries of an L2 table from i on are right.
fn each_right(table: &[u8], scratch: &[u8], i: usize, bits: u32) -> usize
    requires { (((9 ≤ bits) × (bits ≤ most_bits)) × AllFair (2 ^ bits) (length scratch.now / 2) table.now) × (8 * i + 512 ≤ length table.now) }
    ensures { ((i ≤ result) × (result ≤ i + 64)) × Rights (2 ^ bits) scratch.now table.now i result }
{
    let end = i + 64;
    for j in i..end {
        if !mark_right(endian::load64(table, 8 * j), scratch, bits) {
            return j;
        }
    }
    end
}

// The same. Zeros are passed over all at once.
fn group_right(table: &[u8], scratch: &[u8], i: usize, bits: u32) -> usize
    requires { (((9 ≤ bits) × (bits ≤ most_bits)) × AllFair (2 ^ bits) (length scratch.now / 2) table.now) × (8 * i + 512 ≤ length table.now) }
    ensures { ((i ≤ result) × (result ≤ i + 64)) × Rights (2 ^ bits) scratch.now table.now i result }
{
    let at = 8 * i;
    if blank::all_zeros(&table[at..at + 512]) {
        return i + 64;
    }
    each_right(table, scratch, i, bits)
}

// How many marks at the front of an L2 table are right.
fn front_right(table: &[u8], scratch: &[u8], bits: u32) -> usize
    requires { ((9 ≤ bits) × (bits ≤ most_bits)) × AllFair (2 ^ bits) (length scratch.now / 2) table.now }
    ensures { (result ≤ length table.now / 8) × Rights (2 ^ bits) scratch.now table.now 0 result }
{
    let groups = table.len() / 512;
    for d in 0..groups {
        let j = 64 * d;
        let k = group_right(table, scratch, j, bits);
        if k < j + 64 {
            return k;
        }
    }
    64 * groups
}

// Whether all marks of a good L2 table at a place are right.
fn table_right(image: &[u8], scratch: &[u8], p: u64, g: Geometry) -> bool
    requires { (Opened g image.now × (length scratch.now ≡ 2 * g.clusters)) × ((p + 2 ^ g.bits ≤ length image.now) × (table_good image.now p ≡ true)) }
    ensures { result ≡ true → all (right (2 ^ g.bits) scratch.now) (l2_entries image.now p) ≡ true }
{
    let at = p as usize;
    let c = power::power(g.bits) as usize;
    front_right(&image[at..at + c], scratch, g.bits) == c / 8
}

// Whether the marks of a good L1 entry and of the entries below it are right.
fn row_right(image: &[u8], scratch: &[u8], i: usize, g: Geometry) -> bool
    requires { (Opened g image.now × (length scratch.now ≡ 2 * g.clusters)) × ((i < g.l1size) × (entry_good image.now (row_at image.now g.root i) ≡ true)) }
    ensures { result ≡ true → unharmed image.now (wrong_marks image.now (twos scratch.now 0 g.clusters)) (row_at image.now g.root i) ≡ true }
{
    let e = qcow2_refs::row_at(image, i, g);
    if mark_right(e, scratch, g.bits) {
        let p = qcow2_entry::place_of(e);
        if p == 0 {
            return true;
        }
        return table_right(image, scratch, p, g);
    }
    false
}

// How many L1 entries at the front of a good table have right marks, with all below them.
pub fn rows_right(image: &[u8], scratch: &[u8], g: Geometry) -> usize
    requires { (Opened g image.now × (length scratch.now ≡ 2 * g.clusters)) × GoodTo image.now g.root g.l1size }
    ensures { (result ≤ g.l1size) × UnharmedTo image.now (wrong_marks image.now (twos scratch.now 0 g.clusters)) g.root result }
{
    let rows = g.l1size;
    for i in 0..rows {
        if !row_right(image, scratch, i, g) {
            return i;
        }
    }
    rows
}
