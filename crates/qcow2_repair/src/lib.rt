// The repair of a leaking image: each count that differs from the scratch's figure, which has two bytes, is set to it, rising by cluster. The counts of
// such an image lie apart from each other, from the refcount table and from the header, so that what is read on the way is what stood there on entry.
#![tactic(auto)]

ghost use Rattle.std.specs.Prelude.{◌≡◌, ◌+◌, ◌-◌, ◌%◌, ◌≤◌, ◌<◌, ◌++◌, length, take, Ok};
ghost use Rattle.units.specs.Units.{apply_all};
ghost use Rattle.units.specs.Plan.{units as planned, Done};
ghost use Rattle.qcow2_spec.specs.Header.{most_bits, most_length, clusters};
ghost use Rattle.qcow2_spec.specs.Store.{clear_units, clearing};
ghost use Rattle.qcow2_spec.specs.References.{figures_of};
ghost use Rattle.qcow2_spec.specs.Check.{repair_units, verdict, verdict_plan};
ghost use Rattle.qcow2_spec.specs.Opened.{Opened};
ghost use Rattle.qcow2_counts.specs.Blocks.{Reach, per_of, count_place};
ghost use Rattle.packed_twos.specs.Twos.{many, figures_in};
ghost use Rattle.qcow2_repair.specs.Leaks.{Figured, Laid, Leaking, mend_units};
ghost use Rattle.qcow2_repair.specs.Mends.{mending_of};
ghost use Rattle.qcow2_setcount.specs.Fixed.{fixes};

use qcow2_spec::refusal::Refusal;
use qcow2_spec::{Geometry, Verdict};
use units::Ended;

// What a repair is to do.
#[derive(Clone, Copy)]
pub enum Mending {
    Nothing,
    Counts,
}

// By the verdict: a damaged image is refused, and a refused check hands its number on, whatever it is. No image's verdict is that (`unrefused` in
// proofs/Real.antt), so that what is refused has a cause wherever this is called (`told` in proofs/Mends.antt).
#[tactic(auto, unfolding(crate::specs::Mends::mending_of))]
pub fn find_mending(v: Verdict) -> Result<Mending, u8>
    ensures { result ≡ mending_of v }
{
    match v {
        Verdict::Sound => Ok(Mending::Nothing),
        Verdict::Leaks(_) => Ok(Mending::Counts),
        Verdict::BadL1(_, _) => Err(17),
        Verdict::BadL2(_, _, _) => Err(17),
        Verdict::Shared(_) => Err(17),
        Verdict::Short(_) => Err(17),
        Verdict::MarkL1(_) => Err(17),
        Verdict::MarkL2(_, _) => Err(17),
        Verdict::Refused(k) => Err(k),
    }
}

// The counts of the clusters from i on, which stand in one block, are to be refs.
fn repair_block(
    image: &mut [u8],
    g: Geometry,
    i: usize,
    refs: &[u8],
    n: usize,
    allowance: usize,
) -> usize
    requires { (Reach g image.old i × (i % per_of g + many refs.now ≤ per_of g)) × ((n + many refs.now ≤ most_length) × (many refs.now ≤ 4096)) }
    ensures { (result ≡ n + length (fixes g.order image.old (count_place g image.old i) (figures_in refs.now) (many refs.now))) × (image.new ≡ apply_all (take (allowance - n) (fixes g.order image.old (count_place g image.old i) (figures_in refs.now) (many refs.now))) image.old) }
{
    let at = qcow2_counts::count_place(image, g, i);
    qcow2_mend::repair_any(image, g.order, at, refs, n, allowance)
}

// How many clusters from i on are repaired at once: their counts stand in one block, and a comparison takes no more. Where one of them differs they
// are set one by one, but for counts of 16 bits.
fn group_of(g: Geometry, i: usize) -> usize
    requires { ((g.order ≤ g.bits) × (g.bits ≤ most_bits)) × (i < g.clusters) }
    ensures { (((1 ≤ result) × (i + result ≤ g.clusters)) × (i % per_of g + result ≤ per_of g)) × (result ≤ 4096) }
{
    if g.order == 4 {
        return qcow2_counts::run_of(g, i).min(4096);
    }
    qcow2_counts::run_of(g, i).min(512)
}

// The counts of all clusters are to be refs.
fn repair(image: &mut [u8], g: Geometry, refs: &[u8], allowance: usize) -> Ended
    requires { Laid g image.old × (g.clusters ≤ many refs.now) }
    ensures { Done (planned (mend_units g image.old (figures_in refs.now) g.clusters)) allowance image.old (Ok result) image.new }
{
    // A while: how far a turn goes is known only in it.
    let mut i = 0;
    let mut n = 0;
    while i < g.clusters {
        let m = group_of(g, i);
        n = repair_block(image, g, i, &refs[2 * i..2 * (i + m)], n, allowance);
        i += m;
    }
    units::end_of(n, allowance)
}

// A leaking image, with the figures in refs: the clearing unit, then the counts. These lie apart from the header, so that the field makes no difference.
fn store(image: &mut [u8], g: Geometry, refs: &[u8], allowance: usize) -> Ended
    requires { Leaking g image.old refs.now }
    ensures { Done (planned (clear_units image.old ++ repair_units image.old (figures_of image.old) 0 (clusters image.old))) allowance image.old (Ok result) image.new }
{
    let left = qcow2_clear::clear(image, g, allowance);
    let r = repair(image, g, refs, left);
    qcow2_clear::ended_after(r, left, allowance)
}

// A repair by the verdict, with the figures that the check left in refs.
pub fn verdict_repair(
    image: &mut [u8],
    g: Geometry,
    v: Verdict,
    refs: &[u8],
    allowance: usize,
) -> Result<Ended, Refusal>
    requires { (Opened g image.old × Figured image.old refs.now) × (v ≡ verdict image.old) }
    ensures { Done (clearing image.old (verdict_plan image.old v)) allowance image.old result image.new }
{
    match find_mending(v) {
        Err(k) => Err(Refusal::of(k)),
        Ok(Mending::Nothing) => Ok(units::end_of(0, allowance)),
        Ok(Mending::Counts) => Ok(store(image, g, refs, allowance)),
    }
}
