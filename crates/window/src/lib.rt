// Visits to clusters in a window: what lies outside is left alone. Each returns the lowest cluster that was reached again, where bits are set.
#![tactic(auto)]

ghost use Rattle.std.specs.Prelude.{◌≡◌, ◌+◌, ◌≤◌, ◌<◌};
ghost use Rattle.tally.specs.Tally.{run};
ghost use Rattle.window.specs.Window.{board, bit_visited, number_visited, visited_in, visit_all_in};

// The kind of a visit that sets one bit.
const BITS: u16 = 512;

// Bit j, which is cluster c's, is set.
fn visit_bit(target: &mut [u8], low: usize, j: usize, c: usize) -> usize
    ensures { board target.new result ≡ bit_visited j c (board target.old low) }
{
    if target.len() <= j / 8 {
        return low;
    }
    if widths::load(target, 0, j) == 1 {
        return low.min(c);
    }
    widths::store(target, 0, j, 1);
    low
}

// Number j is stepped on.
fn visit_number(target: &mut [u8], low: usize, j: usize, kind: u16) -> usize
    requires { kind < 512 }
    ensures { board target.new result ≡ number_visited kind j (board target.old low) }
{
    if target.len() / 2 <= j {
        return low;
    }
    visits::visit(target, j, kind);
    low
}

// Cluster c is visited in the window from b on.
pub fn visit(target: &mut [u8], low: usize, b: usize, c: usize, kind: u16) -> usize
    requires { kind ≤ 512 }
    ensures { board target.new result ≡ visited_in kind b c (board target.old low) }
{
    if c < b {
        return low;
    }
    if kind == BITS {
        return visit_bit(target, low, c - b, c);
    }
    visit_number(target, low, c - b, kind)
}

// Each of the k clusters from i on is visited.
pub fn visit_run(target: &mut [u8], low: usize, b: usize, i: usize, k: usize, kind: u16) -> usize
    requires { (i + k < 18446744073709551616) × (kind ≤ 512) }
    ensures { board target.new result ≡ visit_all_in kind b (run i k) (board target.old low) }
{
    let mut least = low;
    for j in 0..k {
        least = visit(target, least, b, i + j, kind);
    }
    least
}
