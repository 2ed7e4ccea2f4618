// The disk's bytes: copied to an output, or as a part of the image itself.
#![tactic(auto)]

ghost use Rattle.std.specs.Prelude.{◌≡◌, ◌+◌, ◌-◌, ◌%◌, ◌^◌, ◌<◌, ◌≤◌, ◌++◌, length, take, drop};
ghost use Rattle.qcow2_spec.specs.Causes.{answer};
ghost use Rattle.qcow2_spec.specs.Header.{most_bits, most_length};
ghost use Rattle.qcow2_spec.specs.Guest.{reach, guest_bytes, range_number, range_into, found_part, translated};
ghost use Rattle.qcow2_spec.specs.Opened.{Opened, Active};
ghost use Rattle.qcow2_plain.specs.Plain.{bare};
ghost use Rattle.qcow2_guest.specs.Rows.{Lent, table_of, row_left};

use qcow2_spec::refusal::Refusal;
use qcow2_spec::{Found, Geometry};

// The host offset that a plain entry gives for guest offset x. By the cluster's number, so that the entry stays one number.
fn host_at(e: u64, x: u64, bits: u32) -> usize
    requires { (bits ≤ most_bits) × ((bare e ≤ most_length) × (bare e % 2 ^ bits ≡ 0)) }
    ensures { result ≡ bare e + x % 2 ^ bits }
{
    let c = power::quotient(qcow2_plain::twice(e), bits + 1);
    (c * power::power(bits) + power::rest(x, bits)) as usize
}

// Fills a part with the disk's bytes from x on, which all lie in one guest cluster, whose L2 entry is in the lent table. A plain entry
// gives bytes of the image, 0 gives what lies underneath, every other entry zeros.
fn read_piece(image: &[u8], backing: &[u8], table: &[u8], g: Geometry, x: u64, part: &mut [u8])
    requires { (Opened g image.now) × ((x < reach image.now g.root) × ((Lent image.now g.root table.now x 1) × (x % 2 ^ g.bits + length part.old ≤ 2 ^ g.bits))) }
    ensures { part.new ≡ guest_bytes backing.now image.now g.root x (length part.old) }
{
    let n = part.len();
    let i = power::rest(power::quotient(x, g.bits), g.bits - 3) as usize;
    let e = endian::load64(table, 8 * i);
    if qcow2_plain::is_plain(e, image.len() as u64, g.bits) {
        let at = host_at(e, x, g.bits);
        copy::bytes(part, 0, &image[at..at + n], n);
        return;
    }
    if e == 0 {
        qcow2_under::put_under(part, backing, g.backed, x);
        return;
    }
    copy::zeros(part, 0, n);
}

// Fills the next piece of the output and returns how much is filled then.
fn next_piece(
    image: &[u8],
    backing: &[u8],
    table: &[u8],
    g: Geometry,
    x: u64,
    out: &mut [u8],
    done: usize,
) -> usize
    requires { (Opened g image.now) × ((x + length out.old ≤ reach image.now g.root) × ((Lent image.now g.root table.now x (length out.old)) × (done < length out.old))) }
    ensures { ((done < result) × (result ≤ length out.old)) × (out.new ≡ take done out.old ++ (guest_bytes backing.now image.now g.root (x + done) (result - done) ++ drop result out.old)) }
{
    let y = x + (done as u64);
    let m = qcow2_guest::piece(y, out.len() - done, g.bits);
    read_piece(image, backing, table, g, y, &mut out[done..done + m]);
    done + m
}

// Fills the output with the disk's bytes from x on, whose L2 entries are all in the lent table.
fn read_below(image: &[u8], backing: &[u8], table: &[u8], g: Geometry, x: u64, out: &mut [u8])
    requires { (Opened g image.now) × ((x + length out.old ≤ reach image.now g.root) × (Lent image.now g.root table.now x (length out.old))) }
    ensures { out.new ≡ guest_bytes backing.now image.now g.root x (length out.old) }
{
    // A while: how far a turn goes is known only in it.
    let mut done = 0;
    while done < out.len() {
        done = next_piece(image, backing, table, g, x, out, done);
    }
}

// The place of the L2 table that an L1 entry names; 0 where it names none.
fn table_of(e: u64, n: u64, bits: u32) -> usize
    requires { bits ≤ most_bits }
    ensures { result ≡ table_of (2 ^ bits) n e }
{
    if qcow2_entry::good_l1(e, n, bits) {
        return qcow2_entry::place_of(e) as usize;
    }
    0
}

// Fills a row with the disk's bytes from x on, which all have one L1 entry. Their L2 table is lent once, as a part of the image. Where
// there is none the row is one copy of what lies underneath.
fn read_row(image: &[u8], backing: &[u8], g: Geometry, x: u64, row: &mut [u8])
    requires { (Opened g image.now) × ((x + length row.old ≤ reach image.now g.root) × ((0 < length row.old) × (length row.old ≤ row_left (2 ^ g.bits) (2 ^ (g.bits - 3)) x))) }
    ensures { row.new ≡ guest_bytes backing.now image.now g.root x (length row.old) }
{
    let entry = qcow2_guest::l1_entry(image, g, power::quotient(x, g.bits));
    if entry == 0 {
        qcow2_under::put_under(row, backing, g.backed, x);
        return;
    }
    let t = table_of(entry, image.len() as u64, g.bits);
    if t == 0 {
        let n = row.len();
        copy::zeros(row, 0, n);
    } else {
        let c = power::power(g.bits) as usize;
        read_below(image, backing, &image[t..t + c], g, x, row);
    }
}

// Fills what has the next L1 entry, and returns how much is filled then.
fn read_next(
    image: &[u8],
    backing: &[u8],
    g: Geometry,
    x: u64,
    out: &mut [u8],
    done: usize,
) -> usize
    requires { (Opened g image.now) × ((x + length out.old ≤ reach image.now g.root) × (done < length out.old)) }
    ensures { ((done < result) × (result ≤ length out.old)) × (out.new ≡ take done out.old ++ (guest_bytes backing.now image.now g.root (x + done) (result - done) ++ drop result out.old)) }
{
    let y = x + (done as u64);
    let m = qcow2_guest::row_left(y, out.len() - done, g.bits);
    read_row(image, backing, g, y, &mut out[done..done + m]);
    done + m
}

// Fills the output with the disk's bytes from x on.
fn read_all(image: &[u8], backing: &[u8], g: Geometry, x: u64, out: &mut [u8])
    requires { (Opened g image.now) × (x + length out.old ≤ reach image.now g.root) }
    ensures { out.new ≡ guest_bytes backing.now image.now g.root x (length out.old) }
{
    // A while: how far a turn goes is known only in it.
    let mut done = 0;
    while done < out.len() {
        done = read_next(image, backing, g, x, out, done);
    }
}

// Reads the disk's bytes from x on, over a backing file whose bytes are lent. The output is filled whole or, refused, not at all.
pub fn read_into(
    image: &[u8],
    backing: &[u8],
    g: Geometry,
    x: u64,
    out: &mut [u8],
) -> Result<(), Refusal>
    requires { Opened g image.now }
    ensures { (result ≡ answer (range_number image.now g.root x (length out.old))) × (out.new ≡ range_into backing.now image.now g.root x out.old) }
{
    qcow2_range::check_read(image, g, x, out.len())?;
    read_all(image, backing, g, x, out);
    Ok(())
}

// The disk's bytes from x on as a part of the image, to the end of the cluster or of the disk; empty where x has no host offset.
pub fn part_in<'a>(image: &'a [u8], g: Geometry, x: u64) -> &'a [u8]
    requires { Active g image.now }
    ensures { result.now ≡ found_part image.now x (translated image.now x) }
{
    let f = qcow2_guest::translated(image, g, x);
    match f {
        Ok(Found::Host(h)) => {
            let at = h as usize;
            let m = qcow2_guest::piece(x, (g.size - x) as usize, g.bits);
            &image[at..at + m]
        }
        Ok(Found::Zeros | Found::Absent) | Err(_) => &image[..0],
    }
}
