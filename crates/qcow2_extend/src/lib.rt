// Taking in clusters that were appended to an image: refcount blocks are made for them.
#![tactic(auto)]

ghost use Rattle.units.specs.Plan.{Done};
ghost use Rattle.qcow2_longer.specs.Extend.{extend_plan};

use qcow2_spec::refusal::Refusal;
use units::Ended;

mod making;
mod storing;

// Takes in what follows the first old bytes, with an allowance of units, and says how it ended.
pub fn extend(image: &mut [u8], old: u64, allowance: usize) -> Result<Ended, Refusal>
    ensures { Done (extend_plan image.old old) allowance image.old result image.new }
{
    qcow2_taken::check_extend(image, old)?;
    let g = qcow2_headed::gather(image);
    let from = qcow2_fields::block_count(old, g.bits, g.order) as usize;
    let p = making::layout_of(g);
    Ok(storing::take_in(image, p, g.version, from, allowance))
}
