// The state of a check as bytes that a caller keeps, and a portion's answer as numbers for C.
#![tactic(auto)]

ghost use Rattle.std.specs.Prelude.{◌≡◌, ◌||◌, ◌++◌, ◌≤◌, eqb, length};
ghost use Rattle.endian.specs.Big.{bytes64, splice};
ghost use Rattle.qcow2_kept.specs.Kept.{numbers_of, verdict_of, numbers_at, state_of, seven_bytes, state_bytes, is_finished, kept_after, answer_code, answer_first, answer_second, answer_third};

use qcow2_portion::{CheckState, Portion};
use qcow2_spec::Verdict;

// A verdict as numbers: its kind, and what it names. The kind is a number, since a kept state's bytes hold it (`numbers_at`).
#[derive(Clone, Copy)]
pub struct Numbers {
    pub kind: u64,
    pub a: u64,
    pub b: u64,
    pub c: u64,
}

fn numbers_of(v: Verdict) -> Numbers
    ensures { result ≡ numbers_of v }
{
    match v {
        Verdict::Sound => Numbers {
            kind: 0,
            a: 0,
            b: 0,
            c: 0,
        },
        Verdict::Leaks(n) => Numbers {
            kind: 1,
            a: n as u64,
            b: 0,
            c: 0,
        },
        Verdict::BadL1(t, i) => Numbers {
            kind: 2,
            a: t as u64,
            b: i as u64,
            c: 0,
        },
        Verdict::BadL2(t, i, j) => Numbers {
            kind: 3,
            a: t as u64,
            b: i as u64,
            c: j as u64,
        },
        Verdict::Shared(k) => Numbers {
            kind: 4,
            a: k as u64,
            b: 0,
            c: 0,
        },
        Verdict::Short(k) => Numbers {
            kind: 5,
            a: k as u64,
            b: 0,
            c: 0,
        },
        Verdict::MarkL1(i) => Numbers {
            kind: 6,
            a: i as u64,
            b: 0,
            c: 0,
        },
        Verdict::MarkL2(i, j) => Numbers {
            kind: 7,
            a: i as u64,
            b: j as u64,
            c: 0,
        },
        Verdict::Refused(k) => Numbers {
            kind: 8,
            a: k as u64,
            b: 0,
            c: 0,
        },
    }
}

// The verdict of any four numbers, where its kind is 4 or above.
fn later_of(n: Numbers) -> Verdict
    requires { 4 ≤ n.kind }
    ensures { result ≡ verdict_of n }
{
    if n.kind == 4 {
        return Verdict::Shared(n.a as usize);
    }
    if n.kind == 5 {
        return Verdict::Short(n.a as usize);
    }
    if n.kind == 6 {
        return Verdict::MarkL1(n.a as usize);
    }
    if n.kind == 7 {
        return Verdict::MarkL2(n.a as usize, n.b as usize);
    }
    Verdict::Refused((n.a % 256) as u8)
}

fn verdict_of(n: Numbers) -> Verdict
    ensures { result ≡ verdict_of n }
{
    if n.kind == 0 {
        return Verdict::Sound;
    }
    if n.kind == 1 {
        return Verdict::Leaks(n.a as usize);
    }
    if n.kind == 2 {
        return Verdict::BadL1(n.a as usize, n.b as usize);
    }
    if n.kind == 3 {
        return Verdict::BadL2(n.a as usize, n.b as usize, n.c as usize);
    }
    later_of(n)
}

fn numbers_at(bytes: &[u8]) -> Numbers
    requires { length bytes.now ≡ 56 }
    ensures { result ≡ numbers_at bytes.now }
{
    Numbers {
        kind: endian::load64(bytes, 24),
        a: endian::load64(bytes, 32),
        b: endian::load64(bytes, 40),
        c: endian::load64(bytes, 48),
    }
}

// The state that any bytes hold.
pub fn load(bytes: &[u8]) -> CheckState
    requires { length bytes.now ≡ 56 }
    ensures { result ≡ state_of bytes.now }
{
    let stage = endian::load64(bytes, 0);
    if stage == 0 {
        return CheckState::New;
    }
    let v = verdict_of(numbers_at(bytes));
    if stage == 1 {
        let root = endian::load64(bytes, 8) as usize;
        let row = endian::load64(bytes, 16) as usize;
        return CheckState::Going(root, row, v);
    }
    CheckState::Finished(v)
}

// The first three numbers, and the others.
fn put_place(bytes: &mut [u8], stage: u64, root: u64, row: u64)
    requires { length bytes.old ≡ 56 }
    ensures { bytes.new ≡ splice bytes.old 0 (bytes64 stage ++ bytes64 root ++ bytes64 row) }
{
    endian::store64(bytes, 0, stage);
    endian::store64(bytes, 8, root);
    endian::store64(bytes, 16, row);
}

fn put_numbers(bytes: &mut [u8], n: Numbers)
    requires { length bytes.old ≡ 56 }
    ensures { bytes.new ≡ splice bytes.old 24 (bytes64 n.kind ++ bytes64 n.a ++ bytes64 n.b ++ bytes64 n.c) }
{
    endian::store64(bytes, 24, n.kind);
    endian::store64(bytes, 32, n.a);
    endian::store64(bytes, 40, n.b);
    endian::store64(bytes, 48, n.c);
}

fn put_seven(bytes: &mut [u8], stage: u64, root: u64, row: u64, n: Numbers)
    requires { length bytes.old ≡ 56 }
    ensures { bytes.new ≡ seven_bytes stage root row n }
{
    put_place(bytes, stage, root, row);
    put_numbers(bytes, n);
}

// A state as bytes.
fn store(bytes: &mut [u8], st: CheckState)
    requires { length bytes.old ≡ 56 }
    ensures { bytes.new ≡ state_bytes st }
{
    match st {
        CheckState::New => {
            put_seven(
                bytes,
                0,
                0,
                0,
                Numbers {
                    kind: 0,
                    a: 0,
                    b: 0,
                    c: 0,
                },
            );
        }
        CheckState::Going(root, row, v) => {
            put_seven(bytes, 1, root as u64, row as u64, numbers_of(v));
        }
        CheckState::Finished(v) => {
            put_seven(bytes, 2, 0, 0, numbers_of(v));
        }
    }
}

// Whether a portion changes nothing.
fn is_idle(st: CheckState, may: usize) -> bool
    ensures { result ≡ (eqb may 0 || is_finished st) }
{
    if may == 0 {
        return true;
    }
    match st {
        CheckState::New => false,
        CheckState::Going(_, _, _) => false,
        CheckState::Finished(_) => true,
    }
}

// The state after a portion, as bytes where it has changed.
pub fn keep(bytes: &mut [u8], st: CheckState, may: usize, p: Portion)
    requires { length bytes.old ≡ 56 }
    ensures { bytes.new ≡ kept_after bytes.old st may p }
{
    if p.answer.is_err() {
        return;
    }
    if is_idle(st, may) {
        return;
    }
    let next = p.state;
    store(bytes, next);
}

// The answer's code, with the values beside it.
pub fn put_answer(
    a: Result<Option<Verdict>, u8>,
    first: &mut u64,
    second: &mut u64,
    third: &mut u64,
) -> u32
    ensures { ((result ≡ answer_code a) × (first.new ≡ answer_first a)) × ((second.new ≡ answer_second a) × (third.new ≡ answer_third a)) }
{
    match a {
        Ok(Some(v)) => qcow2_codes::put_verdict(v, first, second, third),
        Ok(None) => {
            *first = 0;
            *second = 0;
            *third = 0;
            1013
        }
        Err(k) => {
            *first = 0;
            *second = 0;
            *third = 0;
            k as u32
        }
    }
}
