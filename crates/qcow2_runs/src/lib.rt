// Runs of guest bytes that go on alike, for an image whose header was accepted.
#![tactic(auto)]

ghost use Rattle.std.specs.Prelude.{◌≡◌, ◌+◌, ◌-◌, ◌*◌, ◌/◌, ◌%◌, ◌^◌, ◌<◌, ◌≤◌, length};
ghost use Rattle.endian.specs.Big.{splice};
ghost use Rattle.qcow2_spec.specs.Guest.{reach, located};
ghost use Rattle.qcow2_spec.specs.Runs.{run_length, run_row, run_rows, runs_listed, runs_put};
ghost use Rattle.qcow2_spec.specs.Opened.{Opened};
ghost use Rattle.qcow2_runs.specs.Ends.{run_from};

use qcow2_spec::refusal::{Cause, Refusal};
use qcow2_spec::{Found, Geometry};

// Where the run from x ends, of whose len bytes i0 are known and end with a guest cluster.
fn next_rows(
    image: &[u8],
    g: Geometry,
    x: u64,
    f: &Result<Found, Refusal>,
    i0: u64,
    len: u64,
) -> u64
    requires { ((Opened g image.now) × (f.now ≡ located image.now g.root x)) × (((i0 ≤ len) × (x + len ≤ reach image.now g.root)) × (i0 < len → (x + i0) % 2 ^ g.bits ≡ 0)) }
    ensures { result ≡ run_from image.now g.root x i0 (len - i0) }
{
    // A while: how far a turn goes is known only in it.
    let mut i = i0;
    while i < len {
        let m = qcow2_guest::row_left(x + i, (len - i) as usize, g.bits) as u64;
        let r = qcow2_stretch::in_next_row(image, g, x, f, i, m);
        if r < m {
            return i + r;
        }
        i += r;
    }
    i
}

// How many of the len bytes from x on go on alike. Those of its guest cluster do.
fn run_length(image: &[u8], g: Geometry, x: u64, f: &Result<Found, Refusal>, len: u64) -> u64
    requires { ((Opened g image.now) × (f.now ≡ located image.now g.root x)) × (x + len ≤ reach image.now g.root) }
    ensures { result ≡ run_length image.now g.root x len }
{
    let first = qcow2_guest::piece(x, len as usize, g.bits) as u64;
    next_rows(image, g, x, f, first, len)
}

// Stores a run as three numbers.
fn put_row(rows: &mut [u64], at: usize, f: &Result<Found, Refusal>, r: u64)
    requires { at + 3 ≤ length rows.old }
    ensures { rows.new ≡ splice rows.old at (run_row f.now r) }
{
    rows[at] = qcow2_alike::codes::found_code(f) as u64;
    rows[at + 1] = qcow2_alike::codes::found_host(f);
    rows[at + 2] = r;
}

// Stores the run from x on and returns its length.
fn next_run(image: &[u8], g: Geometry, x: u64, len: u64, rows: &mut [u64], at: usize) -> u64
    requires { (Opened g image.now) × (((0 < len) × (x + len ≤ reach image.now g.root)) × (at + 3 ≤ length rows.old)) }
    ensures { (result ≡ run_length image.now g.root x len) × (rows.new ≡ splice rows.old at (run_row (located image.now g.root x) result)) }
{
    let w = qcow2_stretch::row_at(image, g, power::quotient(x, g.bits));
    let f = qcow2_stretch::found_in(image, g, w, x);
    let r = run_length(image, g, x, &f, len);
    put_row(rows, at, &f, r);
    r
}

// Stores the runs of the len bytes from x on, as many as there is room for, and returns how many.
fn store_runs(image: &[u8], g: Geometry, x: u64, len: u64, rows: &mut [u64]) -> usize
    requires { (Opened g image.now) × (x + len ≤ reach image.now g.root) }
    ensures { (3 * result ≡ length (run_rows image.now g.root x len (length rows.old / 3))) × (rows.new ≡ splice rows.old 0 (run_rows image.now g.root x len (length rows.old / 3))) }
{
    let room = rows.len() / 3;
    let mut done = 0;
    for k in 0..room {
        if done == len {
            return k;
        }
        done += next_run(image, g, x + done, len - done, rows, 3 * k);
    }
    room
}

// Lists the runs of the len bytes from x on. Refused, the output is left alone.
pub fn listed(
    image: &[u8],
    g: Geometry,
    x: u64,
    len: u64,
    rows: &mut [u64],
) -> Result<usize, Refusal>
    requires { Opened g image.now }
    ensures { (result ≡ runs_listed image.now g.root x len (length rows.old / 3)) × (rows.new ≡ runs_put image.now g.root x len rows.old) }
{
    if power::past(g.size, x, len) {
        return Err(Cause::Range.into());
    }
    Ok(store_runs(image, g, x, len, rows))
}
