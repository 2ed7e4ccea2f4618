// Clusters that are filled and then linked, with every place given. A count comes before the bytes and the bytes before the entry that
// names them, so a cut leaves at most a leak.
ghost use Rattle.std.specs.Prelude.{◌≡◌, ◌+◌, ◌-◌, ◌^◌, ◌≤◌, [], ◌∷◌, ◌++◌, length, take, replicate, Ok};
ghost use Rattle.endian.specs.Big.{splice};
ghost use Rattle.units.specs.Units.{apply_all, count, entry, fill, cluster};
ghost use Rattle.fills.specs.Padded.{padded};
ghost use Rattle.units.specs.Plan.{units as planned, Done};
ghost use Rattle.qcow2_spec.specs.Entries.{new_entry};
ghost use Rattle.qcow2_put.specs.Links.{Filled, Linked, CellIn, table_units, unit_of};
ghost use Rattle.widths.specs.Width.{Inside};

use units::Ended;

// A unit of metadata: its place and its value; of a count also its width, as a power of two, and the place is a bit's.
#[derive(Clone, Copy)]
pub enum Cell {
    Count(u32, usize, u64),
    Entry(usize, u64),
}

// Stores it, and returns what is left of the allowance.
fn put(image: &mut [u8], u: Cell, left: usize) -> usize
    requires { CellIn (length image.old) u }
    ensures { (result ≡ left - 1) × (image.new ≡ apply_all (take left (unit_of u ∷ [])) image.old) }
{
    match u {
        Cell::Count(order, at, x) => units::store_count(image, order, at, x, left),
        Cell::Entry(at, x) => units::store_entry(image, at, x, left),
    }
}

// Stores one and then another.
pub fn put_two(image: &mut [u8], u: Cell, v: Cell, left: usize)
    requires { CellIn (length image.old) u × CellIn (length image.old) v }
    ensures { image.new ≡ apply_all (take left (unit_of u ∷ unit_of v ∷ [])) image.old }
{
    let rest = put(image, u, left);
    put(image, v, rest);
}

// A cluster of c bytes is allotted: its count, then its bytes, src at o over base and zeros. Returns what is left of the allowance.
fn allot(
    image: &mut [u8],
    order: u32,
    count_at: usize,
    at: usize,
    c: usize,
    base: &[u8],
    src: &[u8],
    o: usize,
    left: usize,
) -> usize
    requires { Inside order (length image.old) count_at × ((at + c ≤ length image.old) × ((o + length src.now ≤ c) × (length base.now ≤ c))) }
    ensures { (result ≡ left - (1 + c)) × (image.new ≡ apply_all (take left (count (2 ^ order) count_at 1 ∷ fill at (splice (padded c base.now) o src.now))) image.old) }
{
    let rest = units::store_count(image, order, count_at, 1, left);
    fills::store_cluster(image, at, c, base, src, o, rest)
}

// A cluster is allotted and filled with zeros.
fn allot_zeros(
    image: &mut [u8],
    order: u32,
    count_at: usize,
    at: usize,
    c: usize,
    src: &[u8],
    left: usize,
) -> usize
    requires { Inside order (length image.old) count_at × (at + c ≤ length image.old) }
    ensures { (result ≡ left - (1 + c)) × (image.new ≡ apply_all (take left (count (2 ^ order) count_at 1 ∷ fill at (replicate c 0))) image.old) }
{
    let none = &src[0..0];
    allot(image, order, count_at, at, c, none, none, 0, left)
}

// A new cluster and its entry.
pub fn put_new(
    image: &mut [u8],
    order: u32,
    count_at: usize,
    entry_at: usize,
    at: usize,
    c: usize,
    base: &[u8],
    src: &[u8],
    o: usize,
    allowance: usize,
) -> Ended
    requires { Inside order (length image.old) count_at × Filled (length image.old) entry_at at c o base.now src.now }
    ensures { Done (planned ((count (2 ^ order) count_at 1 ∷ fill at (splice (padded c base.now) o src.now)) ++ entry entry_at (new_entry at) ∷ [])) allowance image.old (Ok result) image.new }
{
    let left = allot(image, order, count_at, at, c, base, src, o, allowance);
    units::store_entry(image, entry_at, at as u64 + 9223372036854775808, left);
    units::end_of(c + 2, allowance)
}

// A cluster that has its place and reads as zeros: the stale bytes go before the mark does.
pub fn put_marked(
    image: &mut [u8],
    entry_at: usize,
    at: usize,
    c: usize,
    src: &[u8],
    o: usize,
    allowance: usize,
) -> Ended
    requires { Filled (length image.old) entry_at at c o [] src.now }
    ensures { Done (planned (fill at (cluster c o src.now) ++ entry entry_at (new_entry at) ∷ [])) allowance image.old (Ok result) image.new }
{
    let rest = fills::store_cluster(image, at, c, &src[0..0], src, o, allowance);
    units::store_entry(image, entry_at, at as u64 + 9223372036854775808, rest);
    units::end_of(c + 1, allowance)
}

// Bytes alone.
pub fn put_bytes(image: &mut [u8], at: usize, src: &[u8], allowance: usize) -> Ended
    requires { at + length src.now ≤ length image.old }
    ensures { Done (planned (fill at src.now)) allowance image.old (Ok result) image.new }
{
    fills::store_bytes(image, at, src, allowance);
    units::end_of(src.len(), allowance)
}

// The places of a write where there is no L2 table: the width of a count as a power of two, the table's count and the table, the data's count and place, the L2 entry and the L1 entry.
#[derive(Clone, Copy)]
pub struct Places {
    pub order: u32,
    pub tablecount: usize,
    pub table: usize,
    pub datacount: usize,
    pub place: usize,
    pub slot: usize,
    pub link: usize,
}

// A new L2 table, a new cluster and both entries.
pub fn put_table(
    image: &mut [u8],
    p: Places,
    c: usize,
    base: &[u8],
    src: &[u8],
    o: usize,
    allowance: usize,
) -> Ended
    requires { Linked (length image.old) p c × ((o + length src.now ≤ c) × (length base.now ≤ c)) }
    ensures { Done (planned (table_units p c (splice (padded c base.now) o src.now))) allowance image.old (Ok result) image.new }
{
    let left = allot_zeros(image, p.order, p.tablecount, p.table, c, src, allowance);
    let rest = allot(image, p.order, p.datacount, p.place, c, base, src, o, left);
    let slot = Cell::Entry(p.slot, p.place as u64 + 9223372036854775808);
    let link = Cell::Entry(p.link, p.table as u64 + 9223372036854775808);
    put_two(image, slot, link, rest);
    units::end_of(2 * c + 4, allowance)
}
