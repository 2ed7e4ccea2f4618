// Stored counts against the scratch's figures, two bytes each: one by one, or all at once.
#![tactic(auto)]

ghost use Rattle.std.specs.Prelude.{◌≡◌, ◌+◌, ◌*◌, ◌/◌, ◌^◌, ◌≤◌, ◌<◌};
ghost use Rattle.packed_twos.specs.Twos.{many, figures_in};
ghost use Rattle.qcow2_counts.specs.Blocks.{Packed};
ghost use Rattle.qcow2_figures.specs.Known.{Judging, Judged, Told};
ghost use Rattle.qcow2_spec.specs.Header.{most_length, most_order};

use packed::Compared;
use tally::Counted;

// The m clusters from base on, whose counts of 2 to the power order bits stand from a bit on, one by one up to the first short one.
pub fn judge_each(
    c: Counted,
    image: &[u8],
    scratch: &[u8],
    order: u32,
    at: usize,
    base: usize,
    m: usize,
) -> Counted
    requires { Packed order image.now base m at × (((base + m ≤ many scratch.now) × (many scratch.now ≤ most_length)) × Judging image.now (figures_in scratch.now) base c) }
    ensures { Judged image.now (figures_in scratch.now) (base + m) result }
{
    let clusters = scratch.len() / 2;
    let width = power::power(order) as usize;
    let mut d = c;
    for j in 0..m {
        let stored = widths::load(image, order, at + width * j);
        let figure = endian::load16(scratch, 2 * (base + j));
        d = tally::against::count_one(d, base + j, stored, figure, clusters);
        if d.low < clusters {
            return d;
        }
    }
    d
}

// The bytes in which m counts stand.
fn bytes_of(order: u32, m: usize) -> usize
    requires { (order ≤ most_order) × (m ≤ 4096) }
    ensures { result ≡ (2 ^ order * m + 7) / 8 }
{
    (power::power(order) as usize * m + 7) / 8
}

// The counts of no more clusters than a comparison takes, from a byte on, against the figures in one pass. Where none is short, those that
// differ leak.
pub fn compared(
    image: &[u8],
    scratch: &[u8],
    order: u32,
    at: usize,
    base: usize,
    m: usize,
) -> Compared
    requires { (Packed order image.now base m (8 * at) × (base + m ≤ many scratch.now)) × (m ≤ 4096) }
    ensures { Told image.now (figures_in scratch.now) base m result.unlike result.under }
{
    let end = at + bytes_of(order, m);
    let first = 2 * base;
    let last = 2 * (base + m);
    packed_wide::compare(&image[at..end], order, &scratch[first..last])
}
