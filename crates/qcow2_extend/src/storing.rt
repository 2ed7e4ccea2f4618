// What is to be made is found first and then stored.
ghost use Rattle.std.specs.Prelude.{◌-◌, ◌≤◌, ◌++◌, length, Ok};
ghost use Rattle.units.specs.Plan.{units as planned, Done};
ghost use Rattle.qcow2_spec.specs.Store.{clear_units, clearing};
ghost use Rattle.qcow2_noted.specs.Noting.{unmade};
ghost use Rattle.qcow2_extend.specs.Making.{Ready, NotedFrom, made_where};

use crate::making::Layout;
use qcow2_noted::{FEW_MARKS, MOST_MARKS, Notes};
use units::Ended;

// The clearing unit, then the blocks that are marked. How it ends is known by those that were noted: all of them, or more than the allowance pays.
fn store(
    image: &mut [u8],
    p: Layout,
    version: u32,
    marks: &[u8],
    start: usize,
    n: Notes,
    allowance: usize,
) -> Ended
    requires { Ready image.old p version start × (NotedFrom image.old p start allowance marks.now n × (p.blocks - start ≤ length marks.now) × (1 ≤ n.missing)) }
    ensures { Done (planned (clear_units image.old ++ made_where p (unmade image.old p.table) start (p.blocks - start))) allowance image.old (Ok result) image.new }
{
    let left = qcow2_clear::clear_field(image, version, allowance);
    crate::making::make_all(image, p, marks, start, start + n.seen, left);
    qcow2_clear::ended_after(
        units::end_of(n.missing * (p.size + 1), left),
        left,
        allowance,
    )
}

// The blocks from one on, with room for their marks.
fn make_from(
    image: &mut [u8],
    p: Layout,
    version: u32,
    start: usize,
    allowance: usize,
    marks: &mut [u8],
) -> Ended
    requires { Ready image.old p version start × (p.blocks - start ≤ length marks.old) }
    ensures { Done (clearing image.old (planned (made_where p (unmade image.old p.table) start (p.blocks - start)))) allowance image.old (Ok result) image.new }
{
    let most = allowance / (p.size + 1);
    let n = qcow2_noted::note(image, p.table + 8 * start, p.blocks - start, most, marks);
    if n.missing == 0 {
        return Ended::Finished(0);
    }
    store(image, p, version, marks, start, n, allowance)
}

// The blocks from one on, in an image that can be extended. Those that are made already are passed over first.
pub fn take_in(image: &mut [u8], p: Layout, version: u32, from: usize, allowance: usize) -> Ended
    requires { Ready image.old p version from }
    ensures { Done (clearing image.old (planned (made_where p (unmade image.old p.table) from (p.blocks - from)))) allowance image.old (Ok result) image.new }
{
    let start = qcow2_noted::skip(image, p.table, from, p.blocks);
    if p.blocks - start <= FEW_MARKS {
        let mut few = qcow2_noted::room::<FEW_MARKS>();
        return make_from(image, p, version, start, allowance, &mut few);
    }
    let mut marks = qcow2_noted::room::<MOST_MARKS>();
    make_from(image, p, version, start, allowance, &mut marks)
}
