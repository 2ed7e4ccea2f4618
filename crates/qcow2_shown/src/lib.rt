// The phase of the entry that a call stores, by the rows that the batch holds and the call's own.
#![tactic(auto)]

ghost use Rattle.std.specs.Prelude.{◌≡◌, ◌∷◌, ◌≤◌};
ghost use Rattle.qcow2_spec.specs.Header.{most_length, most_order};
ghost use Rattle.qcow2_spec.specs.Steps.{whole};
ghost use Rattle.qcow2_jobs.specs.Jobs.{JobIn};
ghost use Rattle.qcow2_phases.specs.Ends.{in_rows};
ghost use Rattle.qcow2_shown.specs.Shown.{shown_in, with_new, with_table, last_phase, freed_phase};

use qcow2_jobs::finding::Job;
use qcow2_jobs::releasing::Freed;
use qcow2_put::linking::Places;

// By the rows that are held alone.
fn shown(held: &[u64], at: usize) -> u64
    ensures { result ≡ shown_in (in_rows 1 held.now) at }
{
    if qcow2_phases::scan(held, 1, at as u64, 8) {
        return 1;
    }
    2
}

// After a cluster of c bytes.
fn after_cluster(held: &[u64], at: usize, p: usize, c: usize) -> u64
    ensures { result ≡ shown_in (whole p c ∷ in_rows 1 held.now) at }
{
    if qcow2_phases::touches(p as u64, c as u64, at as u64, 8) {
        return 1;
    }
    shown(held, at)
}

// After a count, too.
fn after_new(held: &[u64], at: usize, order: u32, count_at: usize, p: usize, c: usize) -> u64
    requires { order ≤ most_order }
    ensures { result ≡ shown_in (with_new order count_at p c (in_rows 1 held.now)) at }
{
    let w = qcow2_rows::span_of(order) as u64;
    if qcow2_phases::touches((count_at / 8) as u64, w, at as u64, 8) {
        return 1;
    }
    after_cluster(held, at, p, c)
}

// After a table and its count, too.
fn after_table(held: &[u64], p: Places, c: usize) -> u64
    requires { p.order ≤ most_order }
    ensures { result ≡ shown_in (with_table p c (in_rows 1 held.now)) p.link }
{
    if qcow2_phases::touches(p.table as u64, c as u64, p.link as u64, 8) {
        return 1;
    }
    let w = qcow2_rows::span_of(p.order) as u64;
    if qcow2_phases::touches((p.tablecount / 8) as u64, w, p.link as u64, 8) {
        return 1;
    }
    after_new(held, p.link, p.order, p.datacount, p.place, c)
}

// The last entry of a write into a cluster of c bytes.
pub fn last_phase(held: &[u64], job: Job, c: usize) -> u64
    requires { JobIn most_length c job }
    ensures { result ≡ last_phase (in_rows 1 held.now) job c }
{
    match job {
        Job::Bytes(_) => 2,
        Job::Marked(at, p) => after_cluster(held, at, p, c),
        Job::New(_, order, count_at, at, p) => after_new(held, at, order, count_at, p, c),
        Job::Table(p) => after_table(held, p, c),
    }
}

// The entry of a discard.
pub fn freed_phase(held: &[u64], freed: Freed) -> u64
    ensures { result ≡ freed_phase (in_rows 1 held.now) freed }
{
    match freed {
        Freed::Entry(at, _) => shown(held, at),
        Freed::Both(at, _, _, _, _) => shown(held, at),
    }
}
