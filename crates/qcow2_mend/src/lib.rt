// Counts of a refcount block that are to be figures, which stand in refs with two bytes each: a whole run at a time where that can be.
#![tactic(auto)]

ghost use Rattle.std.specs.Prelude.{◌≡◌, ◌+◌, ◌-◌, ◌*◌, ◌%◌, ◌≤◌, length, take};
ghost use Rattle.units.specs.Units.{apply_all};
ghost use Rattle.qcow2_spec.specs.Header.{most_length};
ghost use Rattle.qcow2_counts.specs.Blocks.{Row};
ghost use Rattle.packed_twos.specs.Twos.{many, figures_in};
ghost use Rattle.qcow2_setcount.specs.Fixed.{fixes};

// The counts of 16 bits from a byte on become refs: they stand there as they do in refs, so that it is one copy.
fn set_counts(image: &mut [u8], at: usize, refs: &[u8])
    requires { at + 2 * many refs.now ≤ length image.old }
    ensures { image.new ≡ apply_all (fixes 4 image.old (8 * at) (figures_in refs.now) (many refs.now)) image.old }
{
    let m = refs.len() / 2;
    copy::bytes(image, at, refs, 2 * m);
}

// How many of the counts from a bit on, a byte's first, differ from refs.
fn unlike(image: &[u8], order: u32, at: usize, refs: &[u8]) -> usize
    requires { (Row order (length image.now) at (many refs.now) × (length image.now ≤ most_length)) × ((at % 8 ≡ 0) × (many refs.now ≤ 4096)) }
    ensures { (result ≡ length (fixes order image.now at (figures_in refs.now) (many refs.now))) × (result ≤ many refs.now) }
{
    let c = packed_wide::compare(&image[at / 8..image.len()], order, refs);
    c.unlike as usize
}

// The counts from a bit on, a byte's first, are to be refs. Where one of them is not and the allowance has not ended they are set: those of 16 bits all at
// once, unless it ends among them, and others one by one.
fn repair_packed(
    image: &mut [u8],
    order: u32,
    at: usize,
    refs: &[u8],
    n: usize,
    allowance: usize,
) -> usize
    requires { (Row order (length image.old) at (many refs.now) × ((length image.old ≤ most_length) × (n + many refs.now ≤ most_length))) × ((at % 8 ≡ 0) × (many refs.now ≤ 4096)) }
    ensures { (result ≡ n + length (fixes order image.old at (figures_in refs.now) (many refs.now))) × (image.new ≡ apply_all (take (allowance - n) (fixes order image.old at (figures_in refs.now) (many refs.now))) image.old) }
{
    let d = unlike(image, order, at, refs);
    if d == 0 {
        return n;
    }
    if allowance <= n {
        return n + d;
    }
    if order == 4 {
        if n + d <= allowance {
            set_counts(image, at / 8, refs);
            return n + d;
        }
    }
    qcow2_setcount::repair_each(image, order, at, refs, n, allowance)
}

// The counts from a bit on are to be refs.
pub fn repair_any(
    image: &mut [u8],
    order: u32,
    at: usize,
    refs: &[u8],
    n: usize,
    allowance: usize,
) -> usize
    requires { (Row order (length image.old) at (many refs.now) × ((length image.old ≤ most_length) × (n + many refs.now ≤ most_length))) × (many refs.now ≤ 4096) }
    ensures { (result ≡ n + length (fixes order image.old at (figures_in refs.now) (many refs.now))) × (image.new ≡ apply_all (take (allowance - n) (fixes order image.old at (figures_in refs.now) (many refs.now))) image.old) }
{
    if at % 8 == 0 {
        return repair_packed(image, order, at, refs, n, allowance);
    }
    qcow2_setcount::repair_each(image, order, at, refs, n, allowance)
}
