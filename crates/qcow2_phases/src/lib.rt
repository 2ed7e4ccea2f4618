// The rows of a batch against each other: which have bytes in common.
#![tactic(auto)]

ghost use Rattle.std.specs.Prelude.{◌≡◌, ◌&&◌, [], ◌∷◌, ◌+◌, ◌*◌, ◌≤◌, eqb, length, get_or};
ghost use Rattle.qcow2_spec.specs.Steps.{whole};
ghost use Rattle.qcow2_batches.specs.Batch.{meets, clash};
ghost use Rattle.qcow2_phases.specs.Ends.{in_rows, torn, plan_of};

use qcow2_batches::Planned;

// Whether n bytes from a on and len bytes from at on have one in common. No sum is made: it could be too large.
pub fn touches(a: u64, n: u64, at: u64, len: u64) -> bool
    ensures { result ≡ meets (whole a n ∷ []) at len }
{
    if len == 0 {
        return false;
    }
    if a <= at {
        return at - a < n;
    }
    if n == 0 {
        return false;
    }
    a - at < len
}

// Whether row i is of phase p and has one of len bytes from at on.
fn hit(rows: &[u64], i: usize, p: u64, at: u64, len: u64) -> bool
    requires { 4 * i + 4 ≤ length rows.now }
    ensures { result ≡ (eqb (get_or rows.now (4 * i + 3) 0) p && meets (whole (get_or rows.now (4 * i) 0) (get_or rows.now (4 * i + 1) 0) ∷ []) at len) }
{
    if rows[4 * i + 3] != p {
        return false;
    }
    touches(rows[4 * i], rows[4 * i + 1], at, len)
}

// Whether a row of phase p has one of len bytes from at on.
pub fn scan(rows: &[u64], p: u64, at: u64, len: u64) -> bool
    ensures { result ≡ meets (in_rows p rows.now) at len }
{
    let n = rows.len() / 4;
    for i in 0..n {
        if hit(rows, i, p, at, len) {
            return true;
        }
    }
    false
}

// Whether row i of zs is of phase q and has a byte in common with a row of phase p of ys.
fn struck(ys: &[u64], p: u64, zs: &[u64], i: usize, q: u64) -> bool
    requires { 4 * i + 4 ≤ length zs.now }
    ensures { result ≡ (eqb (get_or zs.now (4 * i + 3) 0) q && meets (in_rows p ys.now) (get_or zs.now (4 * i) 0) (get_or zs.now (4 * i + 1) 0)) }
{
    if zs[4 * i + 3] != q {
        return false;
    }
    scan(ys, p, zs[4 * i], zs[4 * i + 1])
}

// Whether a row of phase p of ys and one of phase q of zs have a byte in common. The rows zs are gone through once: the more go there.
fn clashing(ys: &[u64], p: u64, zs: &[u64], q: u64) -> bool
    ensures { result ≡ clash (in_rows p ys.now) (in_rows q zs.now) }
{
    let n = zs.len() / 4;
    for i in 0..n {
        if struck(ys, p, zs, i, q) {
            return true;
        }
    }
    false
}

// Whether a byte is of phase 1 and of phase 3 in the rows that are held and a call's own.
fn tears(held: &[u64], own: &[u64]) -> bool
    ensures { result ≡ torn held.now own.now }
{
    if clashing(own, 1, held, 3) {
        return true;
    }
    if clashing(held, 1, own, 3) {
        return true;
    }
    clashing(own, 1, own, 3)
}

// The answer where k of the rows are held and a call has n, which were put after them as far as there was room.
pub fn planned(rows: &[u64], k: usize, n: usize) -> Planned
    ensures { result ≡ plan_of rows.now k n }
{
    let room = rows.len() / 4;
    if room < k {
        return Planned::Ends;
    }
    if room - k < n {
        return Planned::Ends;
    }
    let a = 4 * k;
    let e = a + 4 * n;
    if tears(&rows[..a], &rows[a..e]) {
        return Planned::Ends;
    }
    Planned::Rows(k + n)
}
