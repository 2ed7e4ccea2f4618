// The search for a number that is 0: 512 bytes are passed over at a time, and only where one of their numbers is 0 it is looked for by 32 bytes
// and then one by one.
#![tactic(auto)]

ghost use Rattle.std.specs.Prelude.{◌≡◌, ◌+◌, ◌-◌, ◌*◌, ◌%◌, ◌^◌, ◌≤◌, ltb, length, take, drop};
ghost use Rattle.choice.specs.Pick.{first};
ghost use Rattle.packed.specs.Packed.{Lie, zero_at};

// The lowest number from index j on that is 0, in a block's numbers of 2 to the power order bits below end; end where there is none. One by one.
fn lowest_each(block: &[u8], order: u32, j: usize, end: usize) -> usize
    requires { Lie order (length block.now) end × (j ≤ end) }
    ensures { result ≡ first (zero_at order block.now) j (end - j) }
{
    let width = power::power(order) as usize;
    for k in j..end {
        if widths::load(block, order, width * k) == 0 {
            return k;
        }
    }
    end
}

// Whether one of the numbers that fill 2 to the power E bytes from number k on, a byte's first, is 0.
fn zero_near<const E: u32>(block: &[u8], order: u32, k: usize) -> bool
    requires { (Lie order (length block.now) (k + 2 ^ (E + 3 - order)) × (2 ^ order * k % 8 ≡ 0)) × ((3 ≤ E) × (E ≤ 9)) }
    ensures { result ≡ ltb (first (zero_at order block.now) k (2 ^ (E + 3 - order))) (k + 2 ^ (E + 3 - order)) }
{
    let at = power::power(order) as usize * k / 8;
    let n = power::power(E) as usize;
    packed_zeros::zero_in::<E>(&block[at..at + n], order)
}

// Passes over groups of 2 to the power E bytes in which no number is 0, from a byte's first number on; where it stops: at a group that has one, or where
// less than a group is left.
fn pass<const E: u32>(block: &[u8], order: u32, j: usize, end: usize) -> usize
    requires { ((Lie order (length block.now) end × (j ≤ end)) × (2 ^ order * j % 8 ≡ 0)) × ((3 ≤ E) × (E ≤ 9)) }
    ensures { (result ≤ end) × (first (zero_at order block.now) j (end - j) ≡ first (zero_at order block.now) result (end - result)) }
{
    let step = power::power(E + 3 - order) as usize;
    let mut k = j;
    // A `while`: where it stops is where the search goes on.
    while step <= end - k {
        if zero_near::<E>(block, order, k) {
            return k;
        }
        k += step;
    }
    k
}

// The lowest number from a byte's first on that is 0: 32 bytes are passed over at a time where none is.
fn lowest_near(block: &[u8], order: u32, j: usize, end: usize) -> usize
    requires { (Lie order (length block.now) end × (j ≤ end)) × (2 ^ order * j % 8 ≡ 0) }
    ensures { result ≡ first (zero_at order block.now) j (end - j) }
{
    let k = pass::<5>(block, order, j, end);
    lowest_each(block, order, k, end)
}

// The same from any number on; one by one where that is no multiple of 8, which is a byte's first at every width.
fn lowest_any(block: &[u8], order: u32, j: usize, end: usize) -> usize
    requires { Lie order (length block.now) end × (j ≤ end) }
    ensures { result ≡ first (zero_at order block.now) j (end - j) }
{
    if j % 8 == 0 {
        return lowest_near(block, order, j, end);
    }
    lowest_each(block, order, j, end)
}

// The same in the c bytes at a place. It gets numbers, since a slice goes to a call through memory, and is called at two places, so that it stays a
// call: a loop over blocks, which comes here once, then makes no slice that is stored and has its numbers in registers.
pub fn near_at(image: &[u8], at: usize, c: usize, order: u32, j: usize, end: usize) -> usize
    requires { (at + c ≤ length image.now) × (Lie order c end × (j ≤ end)) }
    ensures { result ≡ first (zero_at order (take c (drop at image.now))) j (end - j) }
{
    lowest_any(&image[at..at + c], order, j, end)
}

// Passes over groups of 512 bytes, with a loop of its own for 16 bits, the usual width.
pub fn far_any(block: &[u8], order: u32, j: usize, end: usize) -> usize
    requires { (Lie order (length block.now) end × (j ≤ end)) × (2 ^ order * j % 8 ≡ 0) }
    ensures { (result ≤ end) × (first (zero_at order block.now) j (end - j) ≡ first (zero_at order block.now) result (end - result)) }
{
    if order == 4 {
        return pass::<9>(block, 4, j, end);
    }
    pass::<9>(block, order, j, end)
}
