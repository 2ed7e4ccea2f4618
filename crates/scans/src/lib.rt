// Searches of a scratch of two bytes for each cluster.
#![tactic(auto)]

ghost use Rattle.std.specs.Prelude.{◌≡◌, ◌||◌, true, false, ◌+◌, ◌*◌, ◌/◌, ◌%◌, ◌≤◌, ltb, length};
ghost use Rattle.choice.specs.Pick.{first};
ghost use Rattle.endian.specs.Big.{be16};
ghost use Rattle.tally.specs.States.{bad_mark, flag, flag_at};

// The number in two bytes with the bytes turned round: it becomes one load before the compiler makes vectors.
fn turned(s: &[u8], at: usize) -> u16
    requires { at + 2 ≤ length s.now }
    ensures { result % 256 * 256 + result / 256 ≡ be16 s.now at }
{
    u16::from_le_bytes([s[at], s[at + 1]])
}

// Whether the number whose bytes are turned round in t is flagged, or one was found before.
fn flag_or(t: u16, alone: bool, found: bool) -> bool
    ensures { result ≡ (flag alone (t % 256 * 256 + t / 256) || found) }
{
    if t == 0 {
        return found;
    }
    if alone {
        if t == 256 {
            return found;
        }
        return true;
    }
    if t / 256 % 4 == 0 {
        return true;
    }
    found
}

// Whether one of n clusters is shared. The loop has one way out, so that it compiles to loads of 16 bytes.
fn some_bad(scratch: &[u8], n: usize) -> bool
    requires { 2 * n ≤ length scratch.now }
    ensures { result ≡ ltb (first (flag_at false scratch.now) 0 n) n }
{
    let mut found = false;
    for k in 0..n {
        found = flag_or(turned(scratch, 2 * k), false, found);
    }
    found
}

// Whether one of n clusters may have two references. The bits of all numbers are put together: a turned number of 0 or 1 is 0 or 256.
fn some_double(scratch: &[u8], n: usize) -> bool
    requires { 2 * n ≤ length scratch.now }
    ensures { result ≡ false → n ≡ first (flag_at true scratch.now) 0 n }
{
    let mut seen: u16 = 0;
    for k in 0..n {
        seen |= turned(scratch, 2 * k);
    }
    seen != 0 && seen != 256
}

// The lowest of n clusters that is flagged; n where none is.
fn lowest(scratch: &[u8], n: usize, alone: bool) -> usize
    requires { 2 * n ≤ length scratch.now }
    ensures { result ≡ first (flag_at alone scratch.now) 0 n }
{
    for k in 0..n {
        if flag_or(turned(scratch, 2 * k), alone, false) {
            return k;
        }
    }
    n
}

// The lowest cluster that is shared; their number where there is none. Mostly there is none.
pub fn first_bad(scratch: &[u8]) -> usize
    ensures { result ≡ first (λ k. bad_mark (be16 scratch.now (2 * k))) 0 (length scratch.now / 2) }
{
    let n = scratch.len() / 2;
    if some_bad(scratch, n) {
        return lowest(scratch, n, false);
    }
    n
}

// The lowest cluster with two references or more, where they are counted alone; their number where there is none. Mostly there is none.
pub fn lowest_double(scratch: &[u8]) -> usize
    ensures { result ≡ first (λ k. ltb 1 (be16 scratch.now (2 * k))) 0 (length scratch.now / 2) }
{
    let n = scratch.len() / 2;
    if some_double(scratch, n) {
        return lowest(scratch, n, true);
    }
    n
}
