// What lies underneath an image: the bytes of its backing file, which are lent.
#![tactic(auto)]

ghost use Rattle.std.specs.Prelude.{◌≡◌, length};
ghost use Rattle.qcow2_under.specs.Under.{lent_bytes, under_bytes};

// Fills a part with the run's bytes from x on, zeros past its end.
fn put_lent(part: &mut [u8], backing: &[u8], x: u64)
    ensures { part.new ≡ lent_bytes backing.now x (length part.old) }
{
    let n = part.len();
    let len = backing.len();
    if len as u64 <= x {
        copy::zeros(part, 0, n);
        return;
    }
    let at = x as usize;
    let m = n.min(len - at);
    copy::bytes(part, 0, &backing[at..at + m], m);
    copy::zeros(part, m, n - m);
}

// Fills a part with what lies underneath an image from x on. Without a backing file it is zeros, whatever is lent.
pub fn put_under(part: &mut [u8], backing: &[u8], backed: bool, x: u64)
    ensures { part.new ≡ under_bytes backed backing.now x (length part.old) }
{
    if backed {
        put_lent(part, backing, x);
    } else {
        let n = part.len();
        copy::zeros(part, 0, n);
    }
}
