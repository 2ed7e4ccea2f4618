// One entry of the snapshot table.
ghost use Rattle.std.specs.Prelude.{◌≡◌, ◌+◌, ◌^◌, ◌≤◌, length};
ghost use Rattle.qcow2_spec.specs.Header.{most_bits, most_length, entry_end};
ghost use Rattle.qcow2_snapshots.specs.Entry.{bad_root, bad_entry};

// Entries of the longest L1 table.
const MOST_L1: u32 = 65536;

// The bytes of an entry that are always there.
const FIXED: u64 = 40;

// The place after the entry at a place.
pub fn entry_end(image: &[u8], at: usize) -> usize
    requires { (at + 40 ≤ length image.now) × (length image.now ≤ most_length) }
    ensures { result ≡ entry_end image.now at }
{
    let extra = endian::load32(image, at + 36) as usize;
    let id = endian::load16(image, at + 12) as usize;
    let name = endian::load16(image, at + 14) as usize;
    at + 8 * ((40 + extra + id + name + 7) / 8)
}

// Whether the L1 table that an entry names is too long, starts inside a cluster, or runs past the image.
fn bad_root(image: &[u8], at: usize, bits: u32) -> bool
    requires { ((at + 40 ≤ length image.now) × (length image.now ≤ most_length)) × (bits ≤ most_bits) }
    ensures { result ≡ bad_root (2 ^ bits) image.now at }
{
    let size = endian::load32(image, at + 8);
    if size > MOST_L1 {
        return true;
    }
    let root = endian::load64(image, at);
    if power::rest(root, bits) != 0 {
        return true;
    }
    power::past(image.len() as u64, root, 8 * size as u64)
}

// Whether the entry at any place runs past the image, or names a bad L1 table. One whose fixed bytes run past it is not read.
pub fn bad_entry(image: &[u8], at: usize, bits: u32) -> bool
    requires { (length image.now ≤ most_length) × (bits ≤ most_bits) }
    ensures { result ≡ bad_entry (2 ^ bits) image.now at }
{
    if power::past(image.len() as u64, at as u64, FIXED) {
        return true;
    }
    if image.len() < entry_end(image, at) {
        return true;
    }
    bad_root(image, at, bits)
}
