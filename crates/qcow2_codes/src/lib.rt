// Each answer as a number for C, with the values beside it.
#![tactic(auto)]

ghost use Rattle.std.specs.Prelude.{◌≡◌, ◌-◌, eqb, if◌then◌else◌};
ghost use Rattle.qcow2_codes.specs.Codes.{listed_code, listed_rows, planned_code, planned_rows, outcome_code, outcome_units, verdict_code, verdict_first, verdict_second, verdict_third};

use qcow2_batches::Planned;
use qcow2_spec::Verdict;
use qcow2_spec::refusal::Refusal;
use units::Ended;

// The same answer with its refusal's number, as the functions below take it.
pub fn numbered<T>(r: Result<T, Refusal>) -> Result<T, u8>
    ensures { result ≡ r }
{
    match r {
        Ok(v) => Ok(v),
        Err(e) => Err(e.number()),
    }
}

fn listed_code(l: &Result<usize, u8>) -> u32
    ensures { result ≡ listed_code l.now }
{
    match l {
        Err(why) => *why as u32,
        Ok(_) => 0,
    }
}

fn listed_rows(l: &Result<usize, u8>) -> u64
    ensures { result ≡ listed_rows l.now }
{
    match l {
        Err(_) => 0,
        Ok(n) => *n as u64,
    }
}

fn planned_code(p: &Result<Planned, u8>) -> u32
    ensures { result ≡ planned_code p.now }
{
    match p {
        Err(e) => *e as u32,
        Ok(Planned::Ends) => 1014,
        Ok(Planned::Rows(_)) => 0,
    }
}

fn planned_rows(p: &Result<Planned, u8>) -> u64
    ensures { result ≡ planned_rows p.now }
{
    match p {
        Err(_) => 0,
        Ok(Planned::Ends) => 0,
        Ok(Planned::Rows(n)) => *n as u64,
    }
}

fn outcome_code(o: &Result<Ended, u8>) -> u32
    ensures { result ≡ outcome_code o.now }
{
    match o {
        Ok(Ended::Finished(_)) => 0,
        Ok(Ended::Stopped(_)) => 1001,
        Err(e) => *e as u32,
    }
}

fn outcome_units(o: &Result<Ended, u8>) -> u64
    ensures { result ≡ outcome_units o.now }
{
    match o {
        Ok(Ended::Finished(u)) => *u as u64,
        Ok(Ended::Stopped(u)) => *u as u64,
        Err(_) => 0,
    }
}

// The code of a bad entry: of the active tables, or of a snapshot's.
fn entry_code(table: usize, active: u32, snapshot: u32) -> u32
    ensures { result ≡ (if eqb table 0 then active else snapshot) }
{
    if table == 0 { active } else { snapshot }
}

// The snapshot whose L1 table has this number; 0 for the active one too.
fn snapshot_of(table: usize) -> u64
    ensures { result ≡ table - 1 }
{
    table.saturating_sub(1) as u64
}

fn verdict_code(v: Verdict) -> u32
    ensures { result ≡ verdict_code v }
{
    match v {
        Verdict::Sound => 0,
        Verdict::Leaks(_) => 1004,
        Verdict::BadL1(t, _) => entry_code(t, 1005, 1009),
        Verdict::BadL2(t, _, _) => entry_code(t, 1006, 1010),
        Verdict::Shared(_) => 1007,
        Verdict::Short(_) => 1008,
        Verdict::MarkL1(_) => 1011,
        Verdict::MarkL2(_, _) => 1012,
        Verdict::Refused(k) => k as u32,
    }
}

fn verdict_first(v: Verdict) -> u64
    ensures { result ≡ verdict_first v }
{
    match v {
        Verdict::Leaks(k) | Verdict::Shared(k) | Verdict::Short(k) => k as u64,
        Verdict::BadL1(_, i) | Verdict::BadL2(_, i, _) => i as u64,
        Verdict::MarkL1(i) | Verdict::MarkL2(i, _) => i as u64,
        Verdict::Sound | Verdict::Refused(_) => 0,
    }
}

fn verdict_second(v: Verdict) -> u64
    ensures { result ≡ verdict_second v }
{
    match v {
        Verdict::BadL2(_, _, j) => j as u64,
        Verdict::MarkL2(_, j) => j as u64,
        _ => 0,
    }
}

fn verdict_third(v: Verdict) -> u64
    ensures { result ≡ verdict_third v }
{
    match v {
        Verdict::BadL1(t, _) | Verdict::BadL2(t, _, _) => snapshot_of(t),
        _ => 0,
    }
}

// Each is stored with the values beside it, and its code is the answer.
pub fn put_listed(l: Result<usize, u8>, count: &mut u64) -> u32
    ensures { (result ≡ listed_code l) × (count.new ≡ listed_rows l) }
{
    *count = listed_rows(&l);
    listed_code(&l)
}

pub fn put_planned(p: Result<Planned, u8>, count: &mut u64) -> u32
    ensures { (result ≡ planned_code p) × (count.new ≡ planned_rows p) }
{
    *count = planned_rows(&p);
    planned_code(&p)
}

pub fn put_outcome(o: Result<Ended, u8>, units: &mut u64) -> u32
    ensures { (result ≡ outcome_code o) × (units.new ≡ outcome_units o) }
{
    *units = outcome_units(&o);
    outcome_code(&o)
}

pub fn put_verdict(v: Verdict, first: &mut u64, second: &mut u64, third: &mut u64) -> u32
    ensures { ((result ≡ verdict_code v) × (first.new ≡ verdict_first v)) × ((second.new ≡ verdict_second v) × (third.new ≡ verdict_third v)) }
{
    *first = verdict_first(v);
    *second = verdict_second(v);
    *third = verdict_third(v);
    verdict_code(v)
}
