// Counts that are to be figures, which stand in refs with two bytes each: every count that differs is set, one after another.
#![tactic(auto)]

ghost use Rattle.std.specs.Prelude.{◌≡◌, ◌+◌, ◌-◌, ◌*◌, ◌≤◌, length, take};
ghost use Rattle.units.specs.Units.{apply_all};
ghost use Rattle.qcow2_spec.specs.Header.{most_length};
ghost use Rattle.qcow2_counts.specs.Blocks.{Row};
ghost use Rattle.packed_twos.specs.Twos.{many, figures_in};
ghost use Rattle.widths.specs.Width.{Inside};
ghost use Rattle.qcow2_setcount.specs.Fixed.{fix, fixes};

// The count of 2 to the power order bits from a bit on is to be want. Returns the units of the repair so far, of which n came before; those past the allowance are only counted.
fn repair_count(
    image: &mut [u8],
    order: u32,
    at: usize,
    want: u64,
    n: usize,
    allowance: usize,
) -> usize
    requires { Inside order (length image.old) at × (n ≤ most_length) }
    ensures { (result ≡ n + length (fix order image.old at want)) × (image.new ≡ apply_all (take (allowance - n) (fix order image.old at want)) image.old) }
{
    if widths::load(image, order, at) == want {
        return n;
    }
    if n < allowance {
        widths::store(image, order, at, want);
        return n + 1;
    }
    n + 1
}

// The counts from a bit on are to be refs, one after another.
pub fn repair_each(
    image: &mut [u8],
    order: u32,
    at: usize,
    refs: &[u8],
    n: usize,
    allowance: usize,
) -> usize
    requires { Row order (length image.old) at (many refs.now) × ((length image.old ≤ most_length) × (n + many refs.now ≤ most_length)) }
    ensures { (result ≡ n + length (fixes order image.old at (figures_in refs.now) (many refs.now))) × (image.new ≡ apply_all (take (allowance - n) (fixes order image.old at (figures_in refs.now) (many refs.now))) image.old) }
{
    let width = power::power(order) as usize;
    let m = refs.len() / 2;
    let mut spent = n;
    for j in 0..m {
        let want = endian::load16(refs, 2 * j) as u64;
        spent = repair_count(image, order, at + width * j, want, spent, allowance);
    }
    spent
}
