// A check in portions: its state goes in by value and comes out as the next one.
#![tactic(auto)]

ghost use Rattle.std.specs.Prelude.{◌≡◌, ◌*◌, ◌≤◌, length, if◌then◌else◌};
ghost use Rattle.qcow2_spec.specs.Opened.{Active};
ghost use Rattle.qcow2_portions.specs.Rows.{started};
ghost use Rattle.qcow2_portion.specs.declared.CheckState.TheVariants.{New};
ghost use Rattle.qcow2_portion.specs.State.{figures_taken, taken as taken_of, stepped as stepped_of, scratch_stepped, portioned as portioned_of, scratch_portioned, portion as portion_of, scratch_portion};

use qcow2_spec::{Geometry, Verdict};

// Where a check stands: nothing is done yet; so far: the L1 table and the index after the last entry taken, and the first bad entry met (Sound
// where none was); or its verdict is known. L1 table 0 is the active one, and k + 1 snapshot k's.
#[derive(Clone, Copy)]
pub enum CheckState {
    New,
    Going(usize, usize, Verdict),
    Finished(Verdict),
}

// The next state, and the verdict, or none while entries are left. A refusal is a number, any one, as in a state (`Verdict::Refused`); with a
// `Refusal` in it a portion gets no proof where it is passed by value and used again, nor where it is sent to another thread.
#[derive(Clone, Copy)]
pub struct Portion {
    pub state: CheckState,
    pub answer: Result<Option<Verdict>, u8>,
}

// Entries are taken from an index of an L1 table on, as many as may be. Where none is left this is the last portion.
fn taken(
    image: &[u8],
    scratch: &mut [u8],
    g: Geometry,
    root: usize,
    row: usize,
    found: Verdict,
    may: usize,
) -> Portion
    requires { Active g image.now × (length scratch.old ≡ 2 * g.clusters) }
    ensures { (result ≡ taken_of image.now root row found may scratch.old) × (scratch.new ≡ figures_taken image.now root row may scratch.old) }
{
    let n = qcow2_ahead::count_ahead(image, g, root, row);
    let count = may.min(n);
    let w = qcow2_take::take(image, scratch, g, root, row, found, count);
    let met = w.found;
    if may < n {
        return Portion {
            state: CheckState::Going(w.root, w.row, met),
            answer: Ok(None),
        };
    }
    let v = qcow2_last::verdict_of(image, scratch, g, met);
    Portion {
        state: CheckState::Finished(v),
        answer: Ok(Some(v)),
    }
}

// The scratch before entries are taken: the first portion that may take some clears it and adds the references of cluster 0, of the tables and of
// the blocks; a later one finds its figures there.
fn readied(image: &[u8], scratch: &mut [u8], g: Geometry, later: bool)
    requires { Active g image.now × (length scratch.old ≡ 2 * g.clusters) }
    ensures { scratch.new ≡ (if later then scratch.old else started image.now) }
{
    if later {
        return;
    }
    qcow2_take::begin(image, scratch, g);
}

// A portion that takes entries, the first one or a later one.
fn entered(
    image: &[u8],
    scratch: &mut [u8],
    g: Geometry,
    later: bool,
    root: usize,
    row: usize,
    found: Verdict,
    may: usize,
) -> Portion
    requires { Active g image.now × (length scratch.old ≡ 2 * g.clusters) }
    ensures { (result ≡ taken_of image.now root row found may (if later then scratch.old else started image.now)) × (scratch.new ≡ figures_taken image.now root row may (if later then scratch.old else started image.now)) }
{
    readied(image, scratch, g, later);
    taken(image, scratch, g, root, row, found, may)
}

// A portion that may take entries, of a check that is not finished; the scratch's first bytes are its figures.
fn stepped(st: CheckState, image: &[u8], scratch: &mut [u8], g: Geometry, may: usize) -> Portion
    requires { Active g image.now × (2 * g.clusters ≤ length scratch.old) }
    ensures { (result ≡ stepped_of image.now st scratch.old may) × (scratch.new ≡ scratch_stepped image.now st scratch.old may) }
{
    let m = 2 * g.clusters;
    match st {
        CheckState::Finished(v) => {
            return Portion {
                state: st,
                answer: Ok(Some(v)),
            };
        }
        CheckState::New => {
            if may == 0 {
                return Portion {
                    state: st,
                    answer: Ok(None),
                };
            }
            return entered(
                image,
                &mut scratch[..m],
                g,
                false,
                0,
                0,
                Verdict::Sound,
                may,
            );
        }
        CheckState::Going(root, row, found) => {
            if may == 0 {
                return Portion {
                    state: st,
                    answer: Ok(None),
                };
            }
            return entered(image, &mut scratch[..m], g, true, root, row, found, may);
        }
    }
}

// A portion of an accepted image.
fn portioned(st: CheckState, image: &[u8], scratch: &mut [u8], g: Geometry, may: usize) -> Portion
    requires { Active g image.now }
    ensures { (result ≡ portioned_of image.now st scratch.old may) × (scratch.new ≡ scratch_portioned image.now st scratch.old may) }
{
    if scratch.len() / 2 < g.clusters {
        return Portion {
            state: st,
            answer: Err(15),
        };
    }
    stepped(st, image, scratch, g, may)
}

impl CheckState {
    // A check of which nothing is done.
    pub fn new() -> Self
        ensures { result ≡ New }
    {
        CheckState::New
    }

    // One portion more, of at most so many L1 entries: a number from 1 to 10, 15, 18, 19 or 21 and the state as it was, or the next state and the
    // verdict, or that the check is not finished. The scratch's first bytes end with the references of the entries taken so far.
    pub fn portion(self, image: &[u8], backing: &[u8], scratch: &mut [u8], may: usize) -> Portion
        ensures { (result ≡ portion_of backing.now image.now self scratch.old may) × (scratch.new ≡ scratch_portion backing.now image.now self scratch.old may) }
    {
        match qcow2_header::judge(image, backing.len() != 0) {
            Err(e) => Portion {
                state: self,
                answer: Err(e.number()),
            },
            Ok(g) => portioned(self, image, scratch, g, may),
        }
    }
}
