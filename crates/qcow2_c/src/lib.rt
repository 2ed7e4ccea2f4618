// The calls for programs in C or Rust: numbers and byte slices only. include/qcow2_core.h declares them, and has the short forms that lend no bytes of a
// backing file.
#![tactic(auto)]

ghost use Rattle.std.specs.Prelude.{◌≡◌, List, ℕ, suc, ◌/◌, eqb, length, true, if◌then◌else◌};
ghost use Rattle.tally.specs.Tally.{difference};
ghost use Rattle.units.specs.Plan.{outcome, after};
ghost use Rattle.qcow2_spec.specs.Header.{cluster_bits as bits_of, disk_size, clusters as clusters_of, backing_offset, judge_lent, judge};
ghost use Rattle.qcow2_backing.specs.Backing.{shown_length};
ghost use Rattle.qcow2_spec.specs.Causes.{answer};
ghost use Rattle.qcow2_spec.specs.Guest.{translate, read_number, read_into, in_place};
ghost use Rattle.qcow2_spec.specs.Runs.{found_code, found_host, list_runs, runs_into};
ghost use Rattle.qcow2_spec.specs.Store.{write_plan, discard_plan};
ghost use Rattle.qcow2_longer.specs.Extend.{extend_plan};
ghost use Rattle.qcow2_spec.specs.References.{scratch_left};
ghost use Rattle.qcow2_spec.specs.Check.{check, repair_plan};
ghost use Rattle.qcow2_spec.specs.Steps.{list_steps, steps_into};
ghost use Rattle.qcow2_batches.specs.Rows.{answered, rows_left};
ghost use Rattle.qcow2_portion.specs.State.{scratch_portion};
ghost use Rattle.qcow2_kept.specs.Kept.{portion_of, state_of, kept_after, answer_code, answer_first, answer_second, answer_third};
ghost use Rattle.qcow2_codes.specs.Codes.{listed_code, listed_rows, planned_code, planned_rows, outcome_code, outcome_units, verdict_code, verdict_first, verdict_second, verdict_third};

use qcow2_spec::refusal::Refusal;

// The number of a refusal, 0 where there is none.
fn code_of(r: Result<(), Refusal>) -> u32
    ensures { r ≡ answer result }
{
    match r {
        Ok(()) => 0,
        Err(e) => e.number() as u32,
    }
}

#[unsafe(no_mangle)]
pub extern "C" fn qcow2_backed_translate(
    image: &[u8],
    backing: &[u8],
    offset: u64,
    host: &mut u64,
) -> u32
    ensures { (result ≡ found_code (translate backing.now image.now offset)) × (host.new ≡ found_host (translate backing.now image.now offset)) }
{
    let f = qcow2::translate(image, backing, offset);
    *host = qcow2_alike::codes::found_host(&f);
    qcow2_alike::codes::found_code(&f)
}

#[unsafe(no_mangle)]
pub extern "C" fn qcow2_backed_read(
    image: &[u8],
    backing: &[u8],
    offset: u64,
    out: &mut [u8],
) -> u32
    ensures { (result ≡ read_number backing.now image.now 0 offset (length out.old)) × (out.new ≡ read_into backing.now image.now 0 offset out.old) }
{
    code_of(qcow2::read(image, backing, offset, out))
}

#[unsafe(no_mangle)]
pub extern "C" fn qcow2_backed_read_snapshot(
    image: &[u8],
    backing: &[u8],
    snapshot: u64,
    offset: u64,
    out: &mut [u8],
) -> u32
    ensures { (result ≡ read_number backing.now image.now (suc snapshot) offset (length out.old)) × (out.new ≡ read_into backing.now image.now (suc snapshot) offset out.old) }
{
    code_of(qcow2::read_snapshot(image, backing, snapshot, offset, out))
}

// How many guest bytes lie in place; they start at the host offset that qcow2_translate gives.
#[unsafe(no_mangle)]
pub extern "C" fn qcow2_backed_lookup(image: &[u8], backing: &[u8], offset: u64) -> usize
    ensures { result ≡ length (in_place backing.now image.now offset) }
{
    qcow2::lookup(image, backing, offset).len()
}

// The runs of the len guest bytes from the offset on, three numbers each.
#[unsafe(no_mangle)]
pub extern "C" fn qcow2_backed_runs(
    image: &[u8],
    backing: &[u8],
    offset: u64,
    len: u64,
    rows: &mut [u64],
    count: &mut u64,
) -> u32
    ensures { ((result ≡ listed_code (list_runs backing.now image.now 0 offset len (length rows.old / 3))) × (count.new ≡ listed_rows (list_runs backing.now image.now 0 offset len (length rows.old / 3)))) × (rows.new ≡ runs_into backing.now image.now 0 offset len rows.old) }
{
    let l = qcow2::runs(image, backing, offset, len, rows);
    qcow2_codes::put_listed(qcow2_codes::numbered(l), count)
}

#[unsafe(no_mangle)]
pub extern "C" fn qcow2_backed_write(
    image: &mut [u8],
    backing: &[u8],
    offset: u64,
    src: &[u8],
    allowance: u64,
    units: &mut u64,
) -> u32
    ensures { ((result ≡ outcome_code (outcome (write_plan backing.now image.old offset src.now) allowance)) × (units.new ≡ outcome_units (outcome (write_plan backing.now image.old offset src.now) allowance))) × (image.new ≡ after (write_plan backing.now image.old offset src.now) allowance image.old) }
{
    let o = qcow2::write(image, backing, offset, src, allowance as usize);
    qcow2_codes::put_outcome(qcow2_codes::numbered(o), units)
}

#[unsafe(no_mangle)]
pub extern "C" fn qcow2_backed_discard(
    image: &mut [u8],
    backing: &[u8],
    cluster: u64,
    allowance: u64,
    units: &mut u64,
) -> u32
    ensures { ((result ≡ outcome_code (outcome (discard_plan backing.now image.old cluster) allowance)) × (units.new ≡ outcome_units (outcome (discard_plan backing.now image.old cluster) allowance))) × (image.new ≡ after (discard_plan backing.now image.old cluster) allowance image.old) }
{
    let o = qcow2::discard(image, backing, cluster, allowance as usize);
    qcow2_codes::put_outcome(qcow2_codes::numbered(o), units)
}

#[unsafe(no_mangle)]
pub extern "C" fn qcow2_backed_repair(
    image: &mut [u8],
    backing: &[u8],
    scratch: &mut [u8],
    allowance: u64,
    units: &mut u64,
) -> u32
    ensures { ((result ≡ outcome_code (outcome (repair_plan backing.now image.old (length scratch.old)) allowance)) × (units.new ≡ outcome_units (outcome (repair_plan backing.now image.old (length scratch.old)) allowance))) × ((image.new ≡ after (repair_plan backing.now image.old (length scratch.old)) allowance image.old) × (scratch.new ≡ scratch_left backing.now image.old scratch.old)) }
{
    let o = qcow2::repair(image, backing, scratch, allowance as usize);
    qcow2_codes::put_outcome(qcow2_codes::numbered(o), units)
}

#[unsafe(no_mangle)]
pub extern "C" fn qcow2_extend(image: &mut [u8], old: u64, allowance: u64, units: &mut u64) -> u32
    ensures { ((result ≡ outcome_code (outcome (extend_plan image.old old) allowance)) × (units.new ≡ outcome_units (outcome (extend_plan image.old old) allowance))) × (image.new ≡ after (extend_plan image.old old) allowance image.old) }
{
    let o = qcow2_extend::extend(image, old, allowance as usize);
    qcow2_codes::put_outcome(qcow2_codes::numbered(o), units)
}

#[unsafe(no_mangle)]
pub extern "C" fn qcow2_backed_check(
    image: &[u8],
    backing: &[u8],
    scratch: &mut [u8],
    first: &mut u64,
    second: &mut u64,
    third: &mut u64,
) -> u32
    ensures { (((result ≡ verdict_code (check backing.now image.now (length scratch.old))) × (first.new ≡ verdict_first (check backing.now image.now (length scratch.old)))) × ((second.new ≡ verdict_second (check backing.now image.now (length scratch.old))) × (third.new ≡ verdict_third (check backing.now image.now (length scratch.old))))) × (scratch.new ≡ scratch_left backing.now image.now scratch.old) }
{
    let v = qcow2::check(image, backing, scratch);
    qcow2_codes::put_verdict(v, first, second, third)
}

// One portion of a check. The state is any bytes, all 0 for a new one; they change where a portion that may take entries is accepted and the check was not
// finished.
#[unsafe(no_mangle)]
pub extern "C" fn qcow2_backed_check_portion(
    image: &[u8],
    backing: &[u8],
    state: &mut [u8; 56],
    scratch: &mut [u8],
    may: u64,
    first: &mut u64,
    second: &mut u64,
    third: &mut u64,
) -> u32
    ensures { (((result ≡ answer_code (portion_of backing.now image.now state.old scratch.old may).answer) × (first.new ≡ answer_first (portion_of backing.now image.now state.old scratch.old may).answer)) × ((second.new ≡ answer_second (portion_of backing.now image.now state.old scratch.old may).answer) × (third.new ≡ answer_third (portion_of backing.now image.now state.old scratch.old may).answer))) × ((state.new ≡ kept_after state.old (state_of state.old) may (portion_of backing.now image.now state.old scratch.old may)) × (scratch.new ≡ scratch_portion backing.now image.now (state_of state.old) scratch.old may)) }
{
    let st = qcow2_kept::load(state);
    let p = st.portion(image, backing, scratch, may as usize);
    qcow2_kept::keep(state, st, may as usize, p);
    qcow2_kept::put_answer(p.answer, first, second, third)
}

// A stored count less the scratch's figure, with its sign: below zero the cluster is short.
#[unsafe(no_mangle)]
pub extern "C" fn qcow2_difference(stored: u64, figure: u16) -> i32
    ensures { result ≡ difference stored figure }
{
    tally::against::difference(stored, figure)
}

// What the header of an accepted image gives; all 0 where it is refused.
#[unsafe(no_mangle)]
pub extern "C" fn qcow2_backed_geometry(
    image: &[u8],
    backing: &[u8],
    cluster_bits: &mut u64,
    size: &mut u64,
    clusters: &mut u64,
) -> u32
    ensures { (result ≡ judge backing.now image.now) × ((cluster_bits.new ≡ (if eqb (judge backing.now image.now) 0 then bits_of image.now else 0)) × ((size.new ≡ (if eqb (judge backing.now image.now) 0 then disk_size image.now else 0)) × (clusters.new ≡ (if eqb (judge backing.now image.now) 0 then clusters_of image.now else 0)))) }
{
    match qcow2_header::judge(image, backing.len() != 0) {
        Err(e) => {
            *cluster_bits = 0;
            *size = 0;
            *clusters = 0;
            e.number() as u32
        }
        Ok(g) => {
            *cluster_bits = g.bits as u64;
            *size = g.size;
            *clusters = g.clusters as u64;
            0
        }
    }
}

// Where the backing file's name stands and how many bytes it has; both 0 where there is none or the image is refused.
#[unsafe(no_mangle)]
pub extern "C" fn qcow2_backing_name(image: &[u8], at: &mut u64, len: &mut u64) -> u32
    ensures { (result ≡ judge_lent true image.now) × ((at.new ≡ (if eqb (judge_lent true image.now) 0 then backing_offset image.now else 0)) × (len.new ≡ (if eqb (judge_lent true image.now) 0 then shown_length image.now else 0))) }
{
    match qcow2_header::judge(image, true) {
        Err(e) => {
            *at = 0;
            *len = 0;
            e.number() as u32
        }
        Ok(g) => {
            *at = qcow2_backing::name_at(image, g);
            *len = qcow2_backing::name_len(image, g);
            0
        }
    }
}

// The steps of a write that is to be made, four numbers each.
#[unsafe(no_mangle)]
pub extern "C" fn qcow2_backed_write_steps(
    image: &[u8],
    backing: &[u8],
    offset: u64,
    len: u64,
    rows: &mut [u64],
    count: &mut u64,
) -> u32
    ensures { (d : List ℕ) → length d ≡ len → ((result ≡ listed_code (list_steps image.now (write_plan backing.now image.now offset d) (length rows.old))) × (count.new ≡ listed_rows (list_steps image.now (write_plan backing.now image.now offset d) (length rows.old)))) × (rows.new ≡ steps_into image.now (write_plan backing.now image.now offset d) rows.old) }
{
    let l = qcow2_steps::write_steps(image, backing, offset, len, rows);
    qcow2_codes::put_listed(qcow2_codes::numbered(l), count)
}

#[unsafe(no_mangle)]
pub extern "C" fn qcow2_backed_discard_steps(
    image: &[u8],
    backing: &[u8],
    cluster: u64,
    rows: &mut [u64],
    count: &mut u64,
) -> u32
    ensures { ((result ≡ listed_code (list_steps image.now (discard_plan backing.now image.now cluster) (length rows.old))) × (count.new ≡ listed_rows (list_steps image.now (discard_plan backing.now image.now cluster) (length rows.old)))) × (rows.new ≡ steps_into image.now (discard_plan backing.now image.now cluster) rows.old) }
{
    let l = qcow2_steps::discard_steps(image, backing, cluster, rows);
    qcow2_codes::put_listed(qcow2_codes::numbered(l), count)
}

#[unsafe(no_mangle)]
pub extern "C" fn qcow2_backed_repair_steps(
    image: &[u8],
    backing: &[u8],
    scratch: &mut [u8],
    rows: &mut [u64],
    count: &mut u64,
) -> u32
    ensures { ((result ≡ listed_code (list_steps image.now (repair_plan backing.now image.now (length scratch.old)) (length rows.old))) × (count.new ≡ listed_rows (list_steps image.now (repair_plan backing.now image.now (length scratch.old)) (length rows.old)))) × ((rows.new ≡ steps_into image.now (repair_plan backing.now image.now (length scratch.old)) rows.old) × (scratch.new ≡ scratch_left backing.now image.now scratch.old)) }
{
    let l = qcow2_steps::repair_steps(image, backing, scratch, rows);
    qcow2_codes::put_listed(qcow2_codes::numbered(l), count)
}

// A call that is to be made, planned into a batch of which the first `held` of the rows are held: how many there are with its own.
#[unsafe(no_mangle)]
pub extern "C" fn qcow2_backed_batch_write(
    image: &[u8],
    backing: &[u8],
    offset: u64,
    len: u64,
    rows: &mut [u64],
    held: u64,
    count: &mut u64,
) -> u32
    ensures { (d : List ℕ) → length d ≡ len → ((result ≡ planned_code (answered image.now (write_plan backing.now image.now offset d) held rows.old)) × (count.new ≡ planned_rows (answered image.now (write_plan backing.now image.now offset d) held rows.old))) × (rows.new ≡ rows_left image.now (write_plan backing.now image.now offset d) held rows.old) }
{
    let p = qcow2_planned::batch_write(image, backing, offset, len, rows, held as usize);
    qcow2_codes::put_planned(qcow2_codes::numbered(p), count)
}

#[unsafe(no_mangle)]
pub extern "C" fn qcow2_backed_batch_discard(
    image: &[u8],
    backing: &[u8],
    cluster: u64,
    rows: &mut [u64],
    held: u64,
    count: &mut u64,
) -> u32
    ensures { ((result ≡ planned_code (answered image.now (discard_plan backing.now image.now cluster) held rows.old)) × (count.new ≡ planned_rows (answered image.now (discard_plan backing.now image.now cluster) held rows.old))) × (rows.new ≡ rows_left image.now (discard_plan backing.now image.now cluster) held rows.old) }
{
    let p = qcow2_planned::batch_discard(image, backing, cluster, rows, held as usize);
    qcow2_codes::put_planned(qcow2_codes::numbered(p), count)
}

#[unsafe(no_mangle)]
pub extern "C" fn qcow2_backed_batch_repair(
    image: &[u8],
    backing: &[u8],
    scratch: &mut [u8],
    rows: &mut [u64],
    held: u64,
    count: &mut u64,
) -> u32
    ensures { ((result ≡ planned_code (answered image.now (repair_plan backing.now image.now (length scratch.old)) held rows.old)) × (count.new ≡ planned_rows (answered image.now (repair_plan backing.now image.now (length scratch.old)) held rows.old))) × ((rows.new ≡ rows_left image.now (repair_plan backing.now image.now (length scratch.old)) held rows.old) × (scratch.new ≡ scratch_left backing.now image.now scratch.old)) }
{
    let p = qcow2_planned::batch_repair(image, backing, scratch, rows, held as usize);
    qcow2_codes::put_planned(qcow2_codes::numbered(p), count)
}
