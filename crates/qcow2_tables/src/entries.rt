// The entries of the refcount table.
ghost use Rattle.std.specs.Prelude.{◌≡◌, ◌*◌, ◌^◌, ◌≤◌, length};
ghost use Rattle.choice.specs.Pick.{all};
ghost use Rattle.endian.specs.Big.{entries};
ghost use Rattle.qcow2_spec.specs.Header.{most_bits, good_block, good_table};

// Whether an entry names a block in an image of n bytes. Bits 0 to 8 are zero in a multiple of a cluster size. What does not depend
// on the entry leaves the loop, and the first two tests become one.
fn names_block(e: u64, n: u64, bits: u32) -> bool
    requires { ((9 ≤ bits) × (bits ≤ most_bits)) × (2 ^ bits ≤ n) }
    ensures { result ≡ good_block (2 ^ bits) n e }
{
    if e == 0 {
        return false;
    }
    if e > n - power::power(bits) {
        return false;
    }
    power::rest(e, bits) == 0
}

// Whether each of the first entries of a table names a block.
pub fn all_named(table: &[u8], count: usize, n: u64, bits: u32) -> bool
    requires { (((9 ≤ bits) × (bits ≤ most_bits)) × (2 ^ bits ≤ n)) × (8 * count ≤ length table.now) }
    ensures { result ≡ all (good_block (2 ^ bits) n) (entries count table.now) }
{
    for i in 0..count {
        if !names_block(endian::load64(table, 8 * i), n, bits) {
            return false;
        }
    }
    true
}

// Whether the first entries of a table name blocks, and the later ones are 0.
pub fn good(table: &[u8], count: usize, blocks: usize, n: u64, bits: u32) -> bool
    requires { (((9 ≤ bits) × (bits ≤ most_bits)) × (2 ^ bits ≤ n)) × ((blocks ≤ count) × (8 * count ≤ length table.now)) }
    ensures { result ≡ good_table (2 ^ bits) n blocks (entries count table.now) }
{
    if all_named(table, blocks, n, bits) {
        let at = 8 * blocks;
        let end = 8 * count;
        return blank::all_clear(&table[at..end]);
    }
    false
}
