// Stretches of guest bytes below one L1 entry, which is looked up once for all of them.
#![tactic(auto)]

ghost use Rattle.std.specs.Prelude.{◌≡◌, ◌+◌, ◌/◌, ◌^◌, ◌<◌, if◌then◌else◌};
ghost use Rattle.qcow2_spec.specs.Header.{per_table, root_size};
ghost use Rattle.qcow2_spec.specs.Guest.{located};
ghost use Rattle.qcow2_spec.specs.Opened.{Opened};
ghost use Rattle.qcow2_guest.specs.Rows.{Below};
ghost use Rattle.qcow2_stretch.specs.Going.{Goes, Ahead, row_of};

use qcow2_spec::refusal::{Cause, Refusal};
use qcow2_spec::{Found, Geometry};

// The L2 table below the L1 entry of a guest cluster, if there is one.
pub fn row_at(image: &[u8], g: Geometry, guest: u64) -> Result<Option<usize>, Refusal>
    requires { (Opened g image.now) × (guest / per_table image.now < root_size image.now g.root) }
    ensures { result ≡ row_of image.now g.root guest }
{
    let e = qcow2_guest::l1_entry(image, g, guest);
    if e == 0 {
        return Ok(None);
    }
    if qcow2_plain::is_plain(e, image.len() as u64, g.bits) {
        return Ok(Some(qcow2_plain::bare_of(e) as usize));
    }
    Err(Cause::Entry.into())
}

// Where byte x of the disk lies, whose L2 entry is in the table at t.
fn found_below(image: &[u8], g: Geometry, t: usize, x: u64) -> Result<Found, Refusal>
    requires { (Opened g image.now) × (Below image.now g.root t x 1) }
    ensures { result ≡ located image.now g.root x }
{
    let i = power::rest(power::quotient(x, g.bits), g.bits - 3) as usize;
    let e = endian::load64(image, t + 8 * i);
    qcow2_found::found(
        e,
        power::rest(x, g.bits),
        g.version,
        image.len() as u64,
        g.bits,
    )
}

// Where byte x of the disk lies, by what is below its L1 entry.
pub fn found_in(
    image: &[u8],
    g: Geometry,
    w: Result<Option<usize>, Refusal>,
    x: u64,
) -> Result<Found, Refusal>
    requires { (Opened g image.now) × (w ≡ row_of image.now g.root (x / 2 ^ g.bits)) }
    ensures { result ≡ located image.now g.root x }
{
    match w? {
        None => Ok(Found::Absent),
        Some(t) => found_below(image, g, t, x),
    }
}

// How many of the bytes that are left from x + i on, whose L2 entries are in the table at t, go on from x, where f lies.
fn in_table(
    image: &[u8],
    g: Geometry,
    t: usize,
    x: u64,
    f: &Result<Found, Refusal>,
    i: u64,
    left: u64,
) -> u64
    requires { ((Opened g image.now) × (f.now ≡ located image.now g.root x)) × ((Ahead g image.now x i left) × (Below image.now g.root t (x + i) left)) }
    ensures { Goes image.now g.root x i left result }
{
    let c = power::power(g.bits) as usize;
    let from = power::rest(power::quotient(x + i, g.bits), g.bits - 3) as usize;
    let end = from + power::quotient(left + (c as u64 - 1), g.bits) as usize;
    let k = qcow2_alike::table::entries_end(
        &image[t..t + c],
        from,
        end,
        f,
        i,
        g.version,
        image.len() as u64,
        g.bits,
    );
    ((k - from) * c).min(left as usize) as u64
}

// All bytes, or none.
fn all_if(t: bool, left: u64) -> u64
    ensures { result ≡ (if t then left else 0) }
{
    if t { left } else { 0 }
}

// How many of the bytes that are left from x + i on, which all have one L1 entry, go on from x, where f lies.
fn in_row(
    image: &[u8],
    g: Geometry,
    w: Result<Option<usize>, Refusal>,
    x: u64,
    f: &Result<Found, Refusal>,
    i: u64,
    left: u64,
) -> u64
    requires { ((Opened g image.now) × (f.now ≡ located image.now g.root x)) × ((Ahead g image.now x i left) × (w ≡ row_of image.now g.root ((x + i) / 2 ^ g.bits))) }
    ensures { Goes image.now g.root x i left result }
{
    match w {
        Err(e) => all_if(qcow2_alike::same::same(&Err(e), f), left),
        Ok(None) => all_if(qcow2_alike::same::same(&Ok(Found::Absent), f), left),
        Ok(Some(t)) => in_table(image, g, t, x, f, i, left),
    }
}

// The same where the L1 entry is not known yet.
pub fn in_next_row(
    image: &[u8],
    g: Geometry,
    x: u64,
    f: &Result<Found, Refusal>,
    i: u64,
    left: u64,
) -> u64
    requires { ((Opened g image.now) × (f.now ≡ located image.now g.root x)) × (Ahead g image.now x i left) }
    ensures { Goes image.now g.root x i left result }
{
    let w = row_at(image, g, power::quotient(x + i, g.bits));
    in_row(image, g, w, x, f, i, left)
}
