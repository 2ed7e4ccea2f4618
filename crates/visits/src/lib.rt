// Clusters reached by walks, in a scratch of two bytes for each: how it was reached last, and how often.
#![tactic(auto)]

ghost use Rattle.std.specs.Prelude.{◌≡◌, ◌+◌, ◌*◌, ◌/◌, ◌%◌, ◌≤◌, ◌<◌, min, length};
ghost use Rattle.endian.specs.Big.{be16, bytes16, splice};
ghost use Rattle.tally.specs.States.{step as step_of, visited, unpacked};

// One reference more.
fn more(x: u16) -> u16
    ensures { result ≡ min 65535 (x + 1) }
{
    x.saturating_add(1)
}

// One reference more to cluster c, where references are counted alone. Mostly the lower byte alone changes.
pub fn count_up(scratch: &mut [u8], c: usize)
    requires { 2 * c + 2 ≤ length scratch.old }
    ensures { scratch.new ≡ visited 0 scratch.old c }
{
    let low = scratch[2 * c + 1];
    if low < 255 {
        scratch[2 * c + 1] = low + 1;
        return;
    }
    let x = endian::load16(scratch, 2 * c);
    endian::store16(scratch, 2 * c, more(x));
}

// The number of a cluster that was reached before.
fn again(kind: u16, x: u16) -> u16
    requires { (0 < kind) × (kind < 512) × (0 < x) }
    ensures { result ≡ step_of kind x }
{
    if x % 4 != kind % 4 {
        return 4;
    }
    if x / 4 % 128 == kind / 4 {
        return 4;
    }
    if x < 65024 {
        return kind + 512 * (x / 512 + 1);
    }
    4
}

// The number of a cluster once it is visited by a role and a tree. Mostly it was not reached before.
fn step(kind: u16, x: u16) -> u16
    requires { (0 < kind) × (kind < 512) }
    ensures { result ≡ step_of kind x }
{
    if x == 0 {
        return kind + 512;
    }
    again(kind, x)
}

// Cluster c is visited.
pub fn visit(scratch: &mut [u8], c: usize, kind: u16)
    requires { (2 * c + 2 ≤ length scratch.old) × (kind < 512) }
    ensures { scratch.new ≡ visited kind scratch.old c }
{
    if kind == 0 {
        count_up(scratch, c);
        return;
    }
    let x = endian::load16(scratch, 2 * c);
    endian::store16(scratch, 2 * c, step(kind, x));
}

// Cluster k's count alone stays.
fn unpack_one(scratch: &mut [u8], k: usize)
    requires { 2 * k + 2 ≤ length scratch.old }
    ensures { scratch.new ≡ splice scratch.old (2 * k) (bytes16 (be16 scratch.old (2 * k) / 512)) }
{
    let x = endian::load16(scratch, 2 * k);
    endian::store16(scratch, 2 * k, x / 512);
}

// The counts alone stay.
pub fn unpack(scratch: &mut [u8])
    requires { length scratch.old % 2 ≡ 0 }
    ensures { scratch.new ≡ unpacked scratch.old (length scratch.old / 2) }
{
    for k in 0..scratch.len() / 2 {
        unpack_one(scratch, k);
    }
}
