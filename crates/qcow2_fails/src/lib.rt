// Whether one entry fails: it is bad, or its mark is wrong.
#![tactic(auto)]

ghost use Rattle.std.specs.Prelude.{◌≡◌, true, not, ◌*◌, ◌/◌, ◌^◌, ◌≤◌, ◌<◌, length, if◌then◌else◌};
ghost use Rattle.tally.specs.States.{twos};
ghost use Rattle.qcow2_spec.specs.Header.{most_bits};
ghost use Rattle.qcow2_spec.specs.Entries.{good_l1, good_l2};
ghost use Rattle.qcow2_spec.specs.Opened.{Opened};
ghost use Rattle.qcow2_refs.specs.Walks.{row_at, below_at};
ghost use Rattle.qcow2_marks.specs.Marks.{right, Fair};
ghost use Rattle.qcow2_fails.specs.Seeks.{seek_of, below_count, Marked};

use qcow2_spec::Geometry;

// Whether L1 entry i fails.
pub fn row_fails(image: &[u8], scratch: &[u8], i: usize, g: Geometry, marks: bool) -> bool
    requires { (Opened g image.now × (i < g.l1size)) × Marked marks image.now scratch.now g.root g.clusters g.l1size }
    ensures { result ≡ not ((seek_of marks image.now (twos scratch.now 0 g.clusters) g.root).good1 (row_at image.now g.root i)) }
{
    let e = qcow2_refs::row_at(image, i, g);
    if marks {
        return !qcow2_marks::mark_right(e, scratch, g.bits);
    }
    !qcow2_entry::good_l1(e, image.len() as u64, g.bits)
}

// How many L2 entries stand below L1 entry i.
pub fn below_count(image: &[u8], i: usize, g: Geometry) -> usize
    requires { Opened g image.now × (i < g.l1size) }
    ensures { result ≡ below_count image.now g.root i }
{
    if qcow2_entry::place_of(qcow2_refs::row_at(image, i, g)) == 0 {
        return 0;
    }
    (power::power(g.bits) / 8) as usize
}

// Entry j of the table below L1 entry i.
fn below_at(image: &[u8], i: usize, j: usize, g: Geometry) -> u64
    requires { (Opened g image.now × (i < g.l1size)) × ((good_l1 (2 ^ g.bits) (length image.now) (row_at image.now g.root i) ≡ true) × (j < below_count image.now g.root i)) }
    ensures { result ≡ below_at image.now g.root i j }
{
    let p = qcow2_entry::place_of(qcow2_refs::row_at(image, i, g)) as usize;
    let c = power::power(g.bits) as usize;
    endian::load64(&image[p..p + c], 8 * j)
}

// Whether an L2 entry of an image of n bytes fails.
fn entry_fails(e: u64, scratch: &[u8], version: u32, bits: u32, n: u64, marks: bool) -> bool
    requires { ((9 ≤ bits) × (bits ≤ most_bits)) × (marks ≡ true → Fair (2 ^ bits) (length scratch.now / 2) e) }
    ensures { result ≡ not (if marks then right (2 ^ bits) scratch.now e else good_l2 version (2 ^ bits) n e) }
{
    if marks {
        return !qcow2_marks::mark_right(e, scratch, bits);
    }
    !qcow2_entry::good_l2(e, version, n, bits)
}

// Whether entry j of the table below L1 entry i fails.
pub fn below_fails(
    image: &[u8],
    scratch: &[u8],
    i: usize,
    j: usize,
    g: Geometry,
    marks: bool,
) -> bool
    requires { ((Opened g image.now × (i < g.l1size)) × ((good_l1 (2 ^ g.bits) (length image.now) (row_at image.now g.root i) ≡ true) × (j < below_count image.now g.root i))) × Marked marks image.now scratch.now g.root g.clusters g.l1size }
    ensures { result ≡ not ((seek_of marks image.now (twos scratch.now 0 g.clusters) g.root).good2 (below_at image.now g.root i j)) }
{
    let e = below_at(image, i, j, g);
    entry_fails(e, scratch, g.version, g.bits, image.len() as u64, marks)
}
