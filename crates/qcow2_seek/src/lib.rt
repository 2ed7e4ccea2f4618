// One search over an L1 table, for its first bad entry or for its first wrong mark.
#![tactic(auto)]

ghost use Rattle.std.specs.Prelude.{◌≡◌, ◌≤◌, if◌then◌else◌};
ghost use Rattle.tally.specs.States.{twos};
ghost use Rattle.qcow2_spec.specs.References.{l1_entries};
ghost use Rattle.qcow2_spec.specs.Check.{l1_verdict};
ghost use Rattle.qcow2_spec.specs.Opened.{Opened};
ghost use Rattle.qcow2_spec.specs.declared.Verdict.TheVariants.{Sound, BadL1, BadL2, MarkL1, MarkL2};
ghost use Rattle.qcow2_marks.specs.Marks.{UnharmedTo};
ghost use Rattle.qcow2_fails.specs.Seeks.{seek_of, BelowTo, Marked};

use qcow2_spec::{Geometry, Verdict};

// The verdict by L1 entry i of L1 table t.
fn name_row(t: usize, i: usize, marks: bool) -> Verdict
    ensures { result ≡ (if marks then MarkL1 i else BadL1 t i) }
{
    if marks {
        return Verdict::MarkL1(i);
    }
    Verdict::BadL1(t, i)
}

// The verdict by entry j below it.
fn name_below(t: usize, i: usize, j: usize, marks: bool) -> Verdict
    ensures { result ≡ (if marks then MarkL2 i j else BadL2 t i j) }
{
    if marks {
        return Verdict::MarkL2(i, j);
    }
    Verdict::BadL2(t, i, j)
}

// The first entry that fails: L1 entry by L1 entry, each before its L2 entries. Sound where there is none.
// The L1 entries before `from` with all below them, and the first entries below this one, are known not to fail. The scratch is looked at for
// marks alone.
pub fn search(
    image: &[u8],
    scratch: &[u8],
    g: Geometry,
    from: usize,
    first: usize,
    marks: bool,
) -> Verdict
    requires { (Opened g image.now × Marked marks image.now scratch.now g.root g.clusters g.l1size) × ((from ≤ g.l1size) × (UnharmedTo image.now (seek_of marks image.now (twos scratch.now 0 g.clusters) g.root) g.root from × BelowTo image.now (seek_of marks image.now (twos scratch.now 0 g.clusters) g.root) g.root from first)) }
    ensures { result ≡ l1_verdict image.now (seek_of marks image.now (twos scratch.now 0 g.clusters) g.root) 0 (l1_entries image.now g.root) Sound }
{
    let mut found = Verdict::Sound;
    let mut known = first;
    'outer: for i in from..g.l1size {
        if qcow2_fails::row_fails(image, scratch, i, g, marks) {
            found = name_row(g.root, i, marks);
            break 'outer;
        }
        let end = qcow2_fails::below_count(image, i, g);
        for j in known..end {
            if qcow2_fails::below_fails(image, scratch, i, j, g, marks) {
                found = name_below(g.root, i, j, marks);
                break 'outer;
            }
        }
        known = 0;
    }
    found
}
