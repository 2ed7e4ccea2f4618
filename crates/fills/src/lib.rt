// Runs of bytes and whole clusters, stored byte by byte within an allowance. Each is told what is left of it and returns what is left after it.
#![tactic(auto)]

ghost use Rattle.std.specs.Prelude.{◌≡◌, ◌+◌, ◌-◌, ◌≤◌, min, length, take, drop};
ghost use Rattle.endian.specs.Big.{splice};
ghost use Rattle.units.specs.Units.{apply_all, fill};
ghost use Rattle.fills.specs.Padded.{padded};

// Stores the bytes of base, and zeros where it has ended, from an index up to another.
fn lay(part: &mut [u8], base: &[u8], at: usize, end: usize)
    requires { (at ≤ end) × (end ≤ length part.old) }
    ensures { part.new ≡ splice part.old at (take (end - at) (drop at (padded (length part.old) base.now))) }
{
    let b = base.len().min(end);
    if at < b {
        copy::bytes(part, at, &base[at..b], b - at);
        copy::zeros(part, b, end - b);
        return;
    }
    copy::zeros(part, at, end - at);
}

// Stores the first bytes of a filled cluster, src at o over base and zeros, as many as are left, and returns how many.
fn fill_part(part: &mut [u8], base: &[u8], src: &[u8], o: usize, left: usize) -> usize
    requires { (o + length src.now ≤ length part.old) × (length base.now ≤ length part.old) }
    ensures { (result ≡ min left (length part.old)) × (part.new ≡ splice part.old 0 (take result (splice (padded (length part.old) base.now) o src.now))) }
{
    let k = left.min(part.len());
    let a = k.min(o);
    let b = (k - a).min(src.len());
    lay(part, base, 0, a);
    copy::bytes(part, a, src, b);
    lay(part, base, a + b, k);
    k
}

// A whole cluster of c bytes, src at o over base and zeros.
pub fn store_cluster(
    image: &mut [u8],
    at: usize,
    c: usize,
    base: &[u8],
    src: &[u8],
    o: usize,
    left: usize,
) -> usize
    requires { (at + c ≤ length image.old) × ((o + length src.now ≤ c) × (length base.now ≤ c)) }
    ensures { (result ≡ left - c) × (image.new ≡ apply_all (take left (fill at (splice (padded c base.now) o src.now))) image.old) }
{
    left - fill_part(&mut image[at..at + c], base, src, o, left)
}

// A run of bytes.
pub fn store_bytes(image: &mut [u8], at: usize, src: &[u8], left: usize) -> usize
    requires { at + length src.now ≤ length image.old }
    ensures { (result ≡ left - length src.now) × (image.new ≡ apply_all (take left (fill at src.now)) image.old) }
{
    let k = left.min(src.len());
    copy::bytes(image, at, src, k);
    left - k
}
