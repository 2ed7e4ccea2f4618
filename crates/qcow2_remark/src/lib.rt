// The first wrong mark of the active tables where entries may be bad: a bad one is passed over, with all below it.
#![tactic(auto)]

ghost use Rattle.std.specs.Prelude.{◌≡◌, not, ◌+◌, ◌*◌, ◌^◌, ◌≤◌, length};
ghost use Rattle.tally.specs.States.{twos};
ghost use Rattle.qcow2_spec.specs.References.{l2_entries};
ghost use Rattle.qcow2_spec.specs.Opened.{Opened, Active};
ghost use Rattle.qcow2_spec.specs.declared.Verdict.TheVariants.{Sound};
ghost use Rattle.qcow2_groups.specs.Walks.{Room, fore, whole};
ghost use Rattle.qcow2_portions.specs.Last.{good_marks, marks_verdict};
ghost use Rattle.qcow2_remark.specs.Fores.{right_l2, row_fore};

use qcow2_spec::{Geometry, Verdict};

// Whether an L2 entry of an image of n bytes is good and its mark is wrong.
fn wrong_mark(e: u64, scratch: &[u8], version: u32, bits: u32, n: u64) -> bool
    requires { Room scratch.now bits n }
    ensures { result ≡ not (right_l2 version (2 ^ bits) n scratch.now e) }
{
    if qcow2_entry::good_l2(e, version, n, bits) {
        return !qcow2_marks::mark_right(e, scratch, bits);
    }
    false
}

// How many entries at the front of an L2 table have no wrong mark.
fn table_fore(table: &[u8], scratch: &[u8], version: u32, bits: u32, n: u64) -> usize
    requires { Room scratch.now bits n }
    ensures { result ≡ fore (right_l2 version (2 ^ bits) n scratch.now) (whole table.now) }
{
    let per = table.len() / 8;
    for j in 0..per {
        if wrong_mark(endian::load64(table, 8 * j), scratch, version, bits, n) {
            return j;
        }
    }
    per
}

// The same for the L2 table at a place of the image.
fn below_fore(image: &[u8], scratch: &[u8], p: u64, g: Geometry) -> usize
    requires { (Opened g image.now × (length scratch.now ≡ 2 * g.clusters)) × (p + 2 ^ g.bits ≤ length image.now) }
    ensures { result ≡ fore (good_marks image.now (twos scratch.now 0 g.clusters)).good2 (l2_entries image.now p) }
{
    let at = p as usize;
    let c = power::power(g.bits) as usize;
    table_fore(
        &image[at..at + c],
        scratch,
        g.version,
        g.bits,
        image.len() as u64,
    )
}

// The same below an L1 entry: all where it is bad or has no place, one more than there are where its own mark is wrong.
fn row_fore(image: &[u8], scratch: &[u8], e: u64, g: Geometry) -> usize
    requires { Opened g image.now × (length scratch.now ≡ 2 * g.clusters) }
    ensures { result ≡ row_fore image.now (twos scratch.now 0 g.clusters) e }
{
    let per = (power::power(g.bits) / 8) as usize;
    if qcow2_entry::good_l1(e, image.len() as u64, g.bits) {
        if qcow2_marks::mark_right(e, scratch, g.bits) {
            let p = qcow2_entry::place_of(e);
            if p == 0 {
                return per;
            }
            return below_fore(image, scratch, p, g);
        }
        return per + 1;
    }
    per
}

// The first wrong mark: L1 entry by L1 entry, each before its L2 entries. Sound where there is none.
pub fn first_wrong(image: &[u8], scratch: &[u8], g: Geometry) -> Verdict
    requires { Active g image.now × (length scratch.now ≡ 2 * g.clusters) }
    ensures { result ≡ marks_verdict image.now (twos scratch.now 0 g.clusters) Sound }
{
    let per = (power::power(g.bits) / 8) as usize;
    let rows = g.l1size;
    for i in 0..rows {
        let k = row_fore(image, scratch, qcow2_refs::row_at(image, i, g), g);
        if k < per {
            return Verdict::MarkL2(i, k);
        }
        if per < k {
            return Verdict::MarkL1(i);
        }
    }
    Verdict::Sound
}
