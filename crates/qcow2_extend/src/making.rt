// New blocks: each is filled and then entered in the refcount table, with every place given.
ghost use Rattle.std.specs.Prelude.{◌≡◌, ◌-◌, ◌*◌, ◌≤◌, ◌<◌, min, [], ◌∷◌, length, take};
ghost use Rattle.endian.specs.Big.{splice};
ghost use Rattle.units.specs.Units.{apply_all, fill, cluster};
ghost use Rattle.qcow2_spec.specs.Header.{most_bits, most_order};
ghost use Rattle.qcow2_extend.specs.Making.{own_byte, LaidOut, Fits, marked_units, marked, made_where};

use qcow2_spec::Geometry;

// The refcount table's place, the bytes from one new block's place to the next, the bytes of a block, the byte of a new block that holds its own
// count, and the blocks that the image needs.
#[derive(Clone, Copy)]
pub struct Layout {
    pub table: usize,
    pub span: usize,
    pub size: usize,
    pub own: usize,
    pub blocks: usize,
}

// The byte that is 1 in a block whose first count is 1 and whose others are 0: the last of that count's bytes.
fn own_byte(order: u32) -> usize
    requires { order ≤ most_order }
    ensures { result ≡ own_byte order }
{
    if order < 3 {
        return 0;
    }
    power::power(order - 3) as usize - 1
}

pub fn layout_of(g: Geometry) -> Layout
    requires { ((9 ≤ g.bits) × (g.bits ≤ most_bits)) × (g.order ≤ most_order) }
    ensures { LaidOut g result }
{
    Layout {
        table: g.tableat,
        span: qcow2_taken::span_of(g.bits, g.order) as usize,
        size: power::power(g.bits) as usize,
        own: own_byte(g.order),
        blocks: g.blocks,
    }
}

// The first bytes of a new block, as many as are left, and returns how many: zeros, with 1 in the byte of its own count.
fn lay_block(part: &mut [u8], own: usize, left: usize) -> usize
    requires { own < length part.old }
    ensures { (result ≡ min left (length part.old)) × (part.new ≡ splice part.old 0 (take result (cluster (length part.old) own (1 ∷ [])))) }
{
    let k = left.min(part.len());
    copy::zeros(part, 0, k);
    if own < k {
        part[own] = 1;
        return k;
    }
    k
}

// The bytes of new block i. Returns what is left of the allowance, as the next does.
fn fill_block(image: &mut [u8], p: Layout, i: usize, left: usize) -> usize
    requires { Fits (length image.old) p × (i < p.blocks) }
    ensures { (result ≡ left - p.size) × (image.new ≡ apply_all (take left (fill (i * p.span) (cluster p.size p.own (1 ∷ [])))) image.old) }
{
    let at = i * p.span;
    let c = p.size;
    left - lay_block(&mut image[at..at + c], p.own, left)
}

// New block i where its mark is 1: its bytes, then its entry.
fn make_block(image: &mut [u8], p: Layout, i: usize, mark: u8, left: usize) -> usize
    requires { Fits (length image.old) p × (i < p.blocks) }
    ensures { (result ≡ left - length (marked_units p i mark)) × (image.new ≡ apply_all (take left (marked_units p i mark)) image.old) }
{
    if mark != 1 {
        return left;
    }
    let rest = fill_block(image, p, i, left);
    units::store_entry(image, p.table + 8 * i, i as u64 * p.span as u64, rest)
}

// The marked blocks from one up to another, by marks that begin at the first of them.
pub fn make_all(image: &mut [u8], p: Layout, marks: &[u8], start: usize, end: usize, left: usize)
    requires { Fits (length image.old) p × ((end ≤ p.blocks) × (end - start ≤ length marks.now)) }
    ensures { image.new ≡ apply_all (take left (made_where p (marked start marks.now) start (end - start))) image.old }
{
    let mut rest = left;
    for i in start..end {
        rest = make_block(image, p, i, marks[i - start], rest);
    }
}
