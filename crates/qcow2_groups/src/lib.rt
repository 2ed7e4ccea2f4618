// Visiting what L2 entries refer to, and groups of 64 of them.
#![tactic(auto)]

ghost use Rattle.std.specs.Prelude.{◌≡◌, ◌+◌, ◌*◌, ◌/◌, ◌^◌, ◌<◌, ◌≤◌, length, nat_eq, if◌then◌else◌};
ghost use Rattle.tally.specs.States.{visit_all};
ghost use Rattle.qcow2_spec.specs.References.{l2_refs};
ghost use Rattle.qcow2_groups.specs.Walks.{Room, passes, AllGood};

// 1 where bit 0 may be set in an L2 entry.
pub fn marks(version: u32) -> u64
    ensures { (result ≡ (if nat_eq version 3 then 1 else 0)) × (result ≤ 1) }
{
    if version == 3 { 1 } else { 0 }
}

// Counts what an L2 entry refers to where it passes a walk that counts alone, and says whether it does: it is good and has bit 63 beside its place.
// Written over whole numbers, so that the entry is one load, and one test tells that there is a place with bit 63: e is at least 2^63 + 2 and less than
// 2^63 + n.
fn walk_own(scratch: &mut [u8], e: u64, version: u32, bits: u32, n: u64) -> bool
    requires { Room scratch.old bits n }
    ensures { (result ≡ passes 0 version (2 ^ bits) n e) × (scratch.new ≡ (if passes 0 version (2 ^ bits) n e then visit_all 0 (l2_refs version (2 ^ bits) n e) scratch.old else scratch.old)) }
{
    let mark = marks(version);
    let y = std::num::wrapping_sub_u64(e, 9223372036854775810);
    if n - 2 <= y {
        return e <= mark;
    }
    let x = y + 2;
    if power::rest(x, bits) > mark {
        return false;
    }
    visits::count_up(scratch, power::quotient(x, bits) as usize);
    true
}

// The same by a kind that tells role and tree: bit 63 is not looked at. Without it e is at least 2 and less than n where there is a place.
fn walk_role(scratch: &mut [u8], e: u64, version: u32, bits: u32, n: u64, kind: u16) -> bool
    requires { Room scratch.old bits n × ((0 < kind) × (kind < 512)) }
    ensures { (result ≡ passes kind version (2 ^ bits) n e) × (scratch.new ≡ (if passes kind version (2 ^ bits) n e then visit_all kind (l2_refs version (2 ^ bits) n e) scratch.old else scratch.old)) }
{
    let mark = marks(version);
    let x = e % 9223372036854775808;
    let y = std::num::wrapping_sub_u64(x, 2);
    if n - 2 <= y {
        return e <= mark;
    }
    if power::rest(x, bits) > mark {
        return false;
    }
    visits::visit(scratch, power::quotient(x, bits) as usize, kind);
    true
}

// Visits what an L2 entry refers to where it passes, and says whether it does.
pub fn walk_entry(scratch: &mut [u8], e: u64, version: u32, bits: u32, n: u64, kind: u16) -> bool
    requires { Room scratch.old bits n × (kind < 512) }
    ensures { (result ≡ passes kind version (2 ^ bits) n e) × (scratch.new ≡ (if passes kind version (2 ^ bits) n e then visit_all kind (l2_refs version (2 ^ bits) n e) scratch.old else scratch.old)) }
{
    if kind == 0 {
        return walk_own(scratch, e, version, bits, n);
    }
    walk_role(scratch, e, version, bits, n, kind)
}

// Visits what an L2 entry refers to, and says whether it passes. One that is good and does not pass has a common place.
pub fn walk_any(scratch: &mut [u8], e: u64, version: u32, bits: u32, n: u64, kind: u16) -> bool
    requires { Room scratch.old bits n × (kind < 512) }
    ensures { (result ≡ passes kind version (2 ^ bits) n e) × (scratch.new ≡ visit_all kind (l2_refs version (2 ^ bits) n e) scratch.old) }
{
    if walk_entry(scratch, e, version, bits, n, kind) {
        return true;
    }
    if qcow2_entry::good_l2(e, version, n, bits) {
        let p = qcow2_entry::place_of(e);
        visits::visit(scratch, power::quotient(p, bits) as usize, kind);
    }
    false
}

// The same for 64 entries of an L2 table from i on, as long as they pass. Returns where it ends.
fn walk_each(
    table: &[u8],
    scratch: &mut [u8],
    i: usize,
    version: u32,
    bits: u32,
    n: u64,
    kind: u16,
) -> usize
    requires { (Room scratch.old bits n × (kind < 512)) × (8 * i + 512 ≤ length table.now) }
    ensures { ((i ≤ result) × (result ≤ i + 64)) × AllGood kind version bits n table.now i scratch.old result scratch.new }
{
    let end = i + 64;
    for j in i..end {
        let e = endian::load64(table, 8 * j);
        if !walk_entry(scratch, e, version, bits, n, kind) {
            return j;
        }
    }
    end
}

// The same. Zeros are passed over all at once. A walk that counts alone has a copy of the loop to itself, in which the kind is not looked at.
fn walk_group(
    table: &[u8],
    scratch: &mut [u8],
    i: usize,
    version: u32,
    bits: u32,
    n: u64,
    kind: u16,
) -> usize
    requires { (Room scratch.old bits n × (kind < 512)) × (8 * i + 512 ≤ length table.now) }
    ensures { ((i ≤ result) × (result ≤ i + 64)) × AllGood kind version bits n table.now i scratch.old result scratch.new }
{
    let at = 8 * i;
    if blank::all_zeros(&table[at..at + 512]) {
        return i + 64;
    }
    if kind == 0 {
        return walk_each(table, scratch, i, version, bits, n, 0);
    }
    walk_each(table, scratch, i, version, bits, n, kind)
}

// The same for the first entries of an L2 table, as long as they pass. Returns how many.
pub fn walk_good(
    table: &[u8],
    scratch: &mut [u8],
    version: u32,
    bits: u32,
    n: u64,
    kind: u16,
) -> usize
    requires { Room scratch.old bits n × (kind < 512) }
    ensures { (result ≤ length table.now / 8) × AllGood kind version bits n table.now 0 scratch.old result scratch.new }
{
    let groups = table.len() / 512;
    for d in 0..groups {
        let j = 64 * d;
        let k = walk_group(table, scratch, j, version, bits, n, kind);
        if k < j + 64 {
            return k;
        }
    }
    64 * groups
}
