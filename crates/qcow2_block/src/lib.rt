// The stored counts of one block against the scratch's figures: in steps, finer ones where a count is short.
#![tactic(auto)]

ghost use Rattle.std.specs.Prelude.{◌≡◌, ◌+◌, ◌*◌, ◌/◌, ◌≤◌, ◌<◌};
ghost use Rattle.packed_twos.specs.Twos.{many, figures_in};
ghost use Rattle.qcow2_counts.specs.Blocks.{Packed};
ghost use Rattle.qcow2_figures.specs.Known.{Judging, Judged};
ghost use Rattle.qcow2_block.specs.Steps.{Goes, judged_on, ahead};
ghost use Rattle.qcow2_spec.specs.Header.{most_length, most_order};

use tally::Counted;

// How far the counts are judged: what was counted, how many of the clusters, the byte of the next count, and how many are compared at once.
#[derive(Clone, Copy)]
pub struct Judge {
    pub counted: Counted,
    pub done: usize,
    pub at: usize,
    pub step: usize,
}

// What is judged once k clusters more are.
fn judge_on(w: Judge, counted: Counted, order: u32, k: usize) -> Judge
    requires { (order ≤ most_order) × ((w.done + k ≤ most_length) × (w.at ≤ most_length)) }
    ensures { result ≡ judged_on order w counted k }
{
    Judge {
        counted,
        done: w.done + k,
        at: w.at + power::power(order) as usize * (k / 8),
        step: w.step,
    }
}

// The next clusters of m from base on: all at once where none is short. Else fewer of them at once, and one by one where they are few.
fn judge_next(w: Judge, image: &[u8], scratch: &[u8], order: u32, base: usize, m: usize) -> Judge
    requires { ((Goes order image.now base m w × (w.done < m)) × Judging image.now (figures_in scratch.now) (base + w.done) w.counted) × ((base + m ≤ many scratch.now) × (many scratch.now ≤ most_length)) }
    ensures { (Goes order image.now base m result × Judged image.now (figures_in scratch.now) (base + result.done) result.counted) × (ahead m result < ahead m w) }
{
    let c = w.counted;
    let k = w.step.min(m - w.done);
    let p = qcow2_figures::compared(image, scratch, order, w.at, base + w.done, k);
    if p.under == 0 {
        let all = Counted {
            low: c.low,
            over: c.over + p.unlike as usize,
        };
        return judge_on(w, all, order, k);
    }
    if 64 < k {
        return Judge {
            counted: c,
            done: w.done,
            at: w.at,
            step: 64,
        };
    }
    let each = qcow2_figures::judge_each(c, image, scratch, order, 8 * w.at, base + w.done, k);
    judge_on(w, each, order, k)
}

// The m clusters from base on, whose counts of 2 to the power order bits stand from a byte on, up to the first short one.
pub fn judge_block(
    c: Counted,
    image: &[u8],
    scratch: &[u8],
    order: u32,
    at: usize,
    base: usize,
    m: usize,
) -> Counted
    requires { Packed order image.now base m (8 * at) × (((base + m ≤ many scratch.now) × (many scratch.now ≤ most_length)) × Judging image.now (figures_in scratch.now) base c) }
    ensures { Judged image.now (figures_in scratch.now) (base + m) result }
{
    let clusters = scratch.len() / 2;
    let mut w = Judge {
        counted: c,
        done: 0,
        at,
        step: 4096,
    };
    // A `while`: how far a turn goes is a part of the state that it hands on (`Goes`).
    while w.done < m {
        w = judge_next(w, image, scratch, order, base, m);
        let d = w.counted;
        if d.low < clusters {
            return d;
        }
    }
    let d = w.counted;
    d
}
