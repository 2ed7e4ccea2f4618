// The places of the tables.
ghost use Rattle.std.specs.Prelude.{◌≡◌, ◌^◌, ◌≤◌, ◌<◌};
ghost use Rattle.qcow2_spec.specs.Header.{most_bits};
ghost use Rattle.qcow2_tables.specs.Placing.{misplaced as Misplaced, misplaced_tables};

use qcow2_spec::Geometry;

// Whether a table of len bytes starts inside a cluster, or runs past n.
fn misplaced(n: u64, at: u64, len: u64, bits: u32) -> bool
    requires { bits ≤ most_bits }
    ensures { result ≡ Misplaced (2 ^ bits) n at len }
{
    if power::rest(at, bits) != 0 {
        return true;
    }
    power::past(n, at, len)
}

// Whether a table is misplaced, or the refcount table too short for its blocks.
pub fn misplaced_tables(g: Geometry, n: u64) -> bool
    requires { (g.bits ≤ most_bits) × ((g.l1size < 4294967296) × (g.tableclusters < 4294967296)) }
    ensures { result ≡ misplaced_tables g n }
{
    if misplaced(n, g.l1at as u64, 8 * g.l1size as u64, g.bits) {
        return true;
    }
    let c = power::power(g.bits);
    let span = g.tableclusters as u64;
    if misplaced(n, g.tableat as u64, span * c, g.bits) {
        return true;
    }
    span * (c / 8) < g.blocks as u64
}
