// Which entries of a table are still 0, noted before the first store: what is stored may lie over the table itself.
#![tactic(auto)]

ghost use Rattle.std.specs.Prelude.{◌≡◌, ◌+◌, ◌-◌, ◌*◌, ◌≤◌, length};
ghost use Rattle.choice.specs.Pick.{first};
ghost use Rattle.qcow2_noted.specs.Noting.{unmade, mark_of, Noted};

// The entries that were looked at, and how many of them are 0.
#[derive(Clone, Copy)]
pub struct Notes {
    pub seen: usize,
    pub missing: usize,
}

// Marks for the entries of the longest image.
pub const MOST_MARKS: usize = 32768;

// Marks for few entries: a large array takes longer to clear than a small image to judge.
pub const FEW_MARKS: usize = 256;

// Marks for N entries. It is a function so that its length is all that is known of it.
pub fn room<const N: usize>() -> [u8; N]
    ensures { N ≡ length result }
{
    [0; N]
}

// The mark of an entry: 1 where it is 0.
fn mark_of(e: u64) -> u8
    ensures { result ≡ mark_of e }
{
    u8::from(e == 0)
}

// Passes over entries that are not 0.
pub fn skip(image: &[u8], table: usize, from: usize, end: usize) -> usize
    requires { ((table + 8 * end ≤ length image.now) × (length image.now ≤ 4294967296)) × (from ≤ end) }
    ensures { (result ≤ end) × (first (unmade image.now table) from (end - from) ≡ first (unmade image.now table) result (end - result)) }
{
    for i in from..end {
        if endian::load64(image, table + 8 * i) == 0 {
            return i;
        }
    }
    end
}

// Marks the len entries at a place, and stops once more than most are 0: what comes after them is of no account then.
pub fn note(image: &[u8], at: usize, len: usize, most: usize, marks: &mut [u8]) -> Notes
    requires { ((at + 8 * len ≤ length image.now) × (length image.now ≤ 4294967296)) × (len ≤ length marks.old) }
    ensures { Noted image.now at len most marks.new result }
{
    let mut missing = 0;
    for k in 0..len {
        if most < missing {
            return Notes { seen: k, missing };
        }
        let m = mark_of(endian::load64(image, at + 8 * k));
        marks[k] = m;
        missing += m as usize;
    }
    Notes { seen: len, missing }
}
