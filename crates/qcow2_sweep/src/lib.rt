// A sweep over the entries of an L2 table: each visits what it refers to in a window, and is tested.
#![tactic(auto)]

ghost use Rattle.std.specs.Prelude.{◌≡◌, ◌+◌, ◌*◌, ◌%◌, ◌^◌, ◌≤◌, length, nat_eq, if◌then◌else◌};
ghost use Rattle.choice.specs.Pick.{all};
ghost use Rattle.tally.specs.Tally.{joined};
ghost use Rattle.window.specs.Window.{board, visit_all_in};
ghost use Rattle.qcow2_spec.specs.Header.{most_bits};
ghost use Rattle.qcow2_spec.specs.References.{l2_refs};
ghost use Rattle.qcow2_groups.specs.Walks.{fore, whole};
ghost use Rattle.qcow2_sweep.specs.Sweeps.{Whole, passes_by, group};

// The kind of a visit that sets one bit. Kinds are numbers and no enum: the two bytes that `tally` keeps for a cluster hold them.
pub const BITS: u16 = 512;

// The lowest cluster that was reached again, and whether what was swept passes.
#[derive(Clone, Copy)]
pub struct Took {
    pub low: usize,
    pub good: bool,
}

// The lowest cluster that was reached again, and how many entries at the front pass.
#[derive(Clone, Copy)]
pub struct Seen {
    pub low: usize,
    pub fore: usize,
}

// Whether an L2 entry passes.
fn entry_passes(e: u64, version: u32, bits: u32, n: u64, kind: u16) -> bool
    requires { bits ≤ most_bits }
    ensures { result ≡ passes_by kind version (2 ^ bits) n e }
{
    if qcow2_entry::good_l2(e, version, n, bits) {
        if kind == BITS {
            return !qcow2_entry::is_common(e);
        }
        return true;
    }
    false
}

// Visits what an L2 entry refers to, and says whether it passes. Written over whole numbers, so that the entry is one load: without bit 63 it is at
// least a cluster's size and less than n where there is a place, and with bit 63 it is more than n.
fn sweep_entry(
    target: &mut [u8],
    low: usize,
    e: u64,
    version: u32,
    bits: u32,
    n: u64,
    kind: u16,
    b: usize,
) -> Took
    requires { Whole bits n × (kind ≤ 512) }
    ensures { (result.good ≡ passes_by kind version (2 ^ bits) n e) × (board target.new result.low ≡ visit_all_in kind b (l2_refs version (2 ^ bits) n e) (board target.old low)) }
{
    let mark = qcow2_groups::marks(version);
    let size = power::power(bits);
    let d = qcow2_plain::twice(e);
    let y = std::num::wrapping_sub_u64(d, 2 * size);
    if 2 * (n - size) <= y {
        return Took {
            low,
            good: e <= mark,
        };
    }
    if power::rest(e, bits) > mark {
        return Took { low, good: false };
    }
    let c = power::quotient(d, bits + 1) as usize;
    let least = window::visit(target, low, b, c, kind);
    if kind == BITS {
        return Took {
            low: least,
            good: n <= e,
        };
    }
    Took {
        low: least,
        good: true,
    }
}

// The same for 64 entries of an L2 table from i on: whether all pass.
fn sweep_each(
    table: &[u8],
    target: &mut [u8],
    low: usize,
    i: usize,
    version: u32,
    bits: u32,
    n: u64,
    kind: u16,
    b: usize,
) -> Took
    requires { (Whole bits n × (kind ≤ 512)) × (8 * i + 512 ≤ length table.now) }
    ensures { (result.good ≡ all (passes_by kind version (2 ^ bits) n) (group table.now i)) × (board target.new result.low ≡ visit_all_in kind b (joined (l2_refs version (2 ^ bits) n) (group table.now i)) (board target.old low)) }
{
    let end = i + 64;
    let mut least = low;
    let mut good = true;
    for j in i..end {
        let e = endian::load64(table, 8 * j);
        let t = sweep_entry(target, least, e, version, bits, n, kind, b);
        least = t.low;
        good &= t.good;
    }
    Took { low: least, good }
}

// The same. Zeros are passed over all at once. Sweeps that set bits and those that count in a whole scratch have copies of the loop to themselves, in
// which the kind is not looked at.
fn sweep_group(
    table: &[u8],
    target: &mut [u8],
    low: usize,
    i: usize,
    version: u32,
    bits: u32,
    n: u64,
    kind: u16,
    b: usize,
) -> Took
    requires { (Whole bits n × (kind ≤ 512)) × (8 * i + 512 ≤ length table.now) }
    ensures { (result.good ≡ all (passes_by kind version (2 ^ bits) n) (group table.now i)) × (board target.new result.low ≡ visit_all_in kind b (joined (l2_refs version (2 ^ bits) n) (group table.now i)) (board target.old low)) }
{
    let at = 8 * i;
    if blank::all_zeros(&table[at..at + 512]) {
        return Took { low, good: true };
    }
    if kind == BITS {
        return sweep_each(table, target, low, i, version, bits, n, 512, b);
    }
    if kind == 0 {
        if b == 0 {
            return sweep_each(table, target, low, i, version, bits, n, 0, 0);
        }
    }
    sweep_each(table, target, low, i, version, bits, n, kind, b)
}

// The first of 64 entries from i on that does not pass; i + 64 where all do.
fn first_failing(table: &[u8], i: usize, version: u32, bits: u32, n: u64, kind: u16) -> usize
    requires { (bits ≤ most_bits) × (8 * i + 512 ≤ length table.now) }
    ensures { result ≡ i + fore (passes_by kind version (2 ^ bits) n) (group table.now i) }
{
    let end = i + 64;
    for j in i..end {
        let e = endian::load64(table, 8 * j);
        if !entry_passes(e, version, bits, n, kind) {
            return j;
        }
    }
    end
}

// How many entries at the front of a table pass once 64 more from j on are swept, where r of the j before did: all of them pass or not.
fn front_after(
    table: &[u8],
    r: usize,
    j: usize,
    good: bool,
    version: u32,
    bits: u32,
    n: u64,
    kind: u16,
) -> usize
    requires { ((bits ≤ most_bits) × (8 * j + 512 ≤ length table.now)) × (good ≡ all (passes_by kind version (2 ^ bits) n) (group table.now j)) }
    ensures { result ≡ (if nat_eq r j then j + fore (passes_by kind version (2 ^ bits) n) (group table.now j) else r) }
{
    if r != j {
        return r;
    }
    if good {
        return j + 64;
    }
    first_failing(table, j, version, bits, n, kind)
}

// Visits what the entries of an L2 table refer to, bad ones too, and says how many at its front pass.
pub fn sweep_table(
    table: &[u8],
    target: &mut [u8],
    low: usize,
    version: u32,
    bits: u32,
    n: u64,
    kind: u16,
    b: usize,
) -> Seen
    requires { (Whole bits n × (kind ≤ 512)) × (length table.now % 512 ≡ 0) }
    ensures { (result.fore ≡ fore (passes_by kind version (2 ^ bits) n) (whole table.now)) × (board target.new result.low ≡ visit_all_in kind b (joined (l2_refs version (2 ^ bits) n) (whole table.now)) (board target.old low)) }
{
    let mut least = low;
    let mut r = 0;
    for d in 0..table.len() / 512 {
        let j = 64 * d;
        let t = sweep_group(table, target, least, j, version, bits, n, kind, b);
        least = t.low;
        r = front_after(table, r, j, t.good, version, bits, n, kind);
    }
    Seen {
        low: least,
        fore: r,
    }
}
