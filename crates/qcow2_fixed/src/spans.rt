// Visiting clusters that stand side by side.
ghost use Rattle.std.specs.Prelude.{◌≡◌, ◌/◌, ◌^◌, ◌≤◌};
ghost use Rattle.choice.specs.Pick.{ceil_div};
ghost use Rattle.tally.specs.Tally.{run};
ghost use Rattle.window.specs.Window.{board, visit_all_in};
ghost use Rattle.qcow2_spec.specs.Header.{most_bits, most_length};

// Visits a number of clusters from a place on.
pub fn visit_clusters(
    target: &mut [u8],
    low: usize,
    at: usize,
    span: usize,
    bits: u32,
    kind: u16,
    b: usize,
) -> usize
    requires { ((bits ≤ most_bits) × (kind ≤ 512)) × ((at ≤ most_length) × (span ≤ most_length)) }
    ensures { board target.new result ≡ visit_all_in kind b (run (at / 2 ^ bits) span) (board target.old low) }
{
    let k = power::quotient(at as u64, bits) as usize;
    window::visit_run(target, low, b, k, span, kind)
}

// The clusters that a number of bytes needs.
fn clusters_of(bytes: usize, bits: u32) -> usize
    requires { (bits ≤ most_bits) × (bytes ≤ most_length) }
    ensures { result ≡ ceil_div bytes (2 ^ bits) }
{
    let c = power::power(bits) as usize;
    power::quotient((bytes + (c - 1)) as u64, bits) as usize
}

// Visits the clusters of a number of bytes from a place on.
pub fn visit_bytes(
    target: &mut [u8],
    low: usize,
    at: usize,
    bytes: usize,
    bits: u32,
    kind: u16,
    b: usize,
) -> usize
    requires { ((bits ≤ most_bits) × (kind ≤ 512)) × ((at ≤ most_length) × (bytes ≤ most_length)) }
    ensures { board target.new result ≡ visit_all_in kind b (run (at / 2 ^ bits) (ceil_div bytes (2 ^ bits))) (board target.old low) }
{
    visit_clusters(target, low, at, clusters_of(bytes, bits), bits, kind, b)
}
