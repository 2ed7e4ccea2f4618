// Numbers of one width side by side against figures of two bytes each.
#![tactic(auto)]

ghost use Rattle.std.specs.Prelude.{◌≡◌, ◌/◌, ◌≤◌, length};
ghost use Rattle.choice.specs.Pick.{count};
ghost use Rattle.packed.specs.Packed.{unlike_at, under_at, Lie};
ghost use Rattle.packed_twos.specs.Twos.{twos, many, Ready, Tallied};

use packed::Compared;

// An array for the figures' low bytes. It is a function so that its length is all that a proof knows of it.
fn room<const N: usize>() -> [u8; N]
    ensures { N ≡ length result }
{
    [0; N]
}

// Where no figure is above 1 the low bytes are the figures; else one by one.
fn by_bytes(block: &[u8], order: u32, figures: &[u8], bytes: &mut [u8]) -> Compared
    requires { Ready order block.now figures.now × (many figures.now ≤ length bytes.old) }
    ensures { Tallied order block.now figures.now result.unlike result.under }
{
    if packed_twos::lows::narrowed(figures, bytes) {
        let m = figures.len() / 2;
        return packed_figures::compare(block, order, &bytes[0..m]);
    }
    packed_twos::each::numbers(block, order, figures)
}

// By way of an array for N figures.
fn within<const N: usize>(block: &[u8], order: u32, figures: &[u8]) -> Compared
    requires { (Ready order block.now figures.now × (many figures.now ≤ N)) × (N ≤ 4096) }
    ensures { Tallied order block.now figures.now result.unlike result.under }
{
    let mut bytes = room::<N>();
    by_bytes(block, order, figures, &mut bytes)
}

// How many numbers are not the figures, and how many are below them.
pub fn compare(block: &[u8], order: u32, figures: &[u8]) -> Compared
    requires { Lie order (length block.now) (length figures.now / 2) × (length figures.now / 2 ≤ 4096) }
    ensures { (result.unlike ≡ count (unlike_at order block.now (twos figures.now (length figures.now / 2))) 0 (length figures.now / 2)) × (result.under ≡ count (under_at order block.now (twos figures.now (length figures.now / 2))) 0 (length figures.now / 2)) }
{
    if order == 4 {
        return packed_sixteen::numbers16(block, figures);
    }
    // Clearing a long array takes as long as the counts of a small cluster.
    if figures.len() <= 1024 {
        return within::<512>(block, order, figures);
    }
    within::<4096>(block, order, figures)
}
