// The rows of a write's or a discard's own units. The caller says in which epoch the one is that links, shows or frees what the others make ready.
ghost use Rattle.std.specs.Prelude.{◌+◌, ◌≤◌, ◌<◌};
ghost use Rattle.qcow2_spec.specs.Header.{most_length};
ghost use Rattle.qcow2_put.specs.Links.{Linked};
ghost use Rattle.qcow2_jobs.specs.Jobs.{JobIn, FreedIn};
ghost use Rattle.qcow2_rows.specs.Rows.{Puts};
ghost use Rattle.qcow2_rows.specs.Own.{table_rows, job_rows, freed_rows};

use crate::{put_count, put_entry, put_row};
use qcow2_jobs::finding::Job;
use qcow2_jobs::releasing::Freed;
use qcow2_put::linking::Places;

// A new L2 table and a new cluster.
fn table_rows(rows: &mut [u64], k: usize, p: Places, c: usize, last: u64) -> usize
    requires { (k ≤ 1) × Linked most_length p c }
    ensures { (result ≤ 7) × Puts (table_rows last p c) rows.old k rows.new result }
{
    let a = put_count(rows, k, p.order, p.tablecount, 1);
    let b = put_row(rows, a, p.table, c, c, 1);
    let d = put_count(rows, b, p.order, p.datacount, 1);
    let e = put_row(rows, d, p.place, c, c, 1);
    let f = put_entry(rows, e, p.slot, 1);
    put_entry(rows, f, p.link, last)
}

// A write of len bytes from byte o of its cluster of c bytes on.
pub fn job_rows(
    rows: &mut [u64],
    k: usize,
    job: Job,
    c: usize,
    o: usize,
    len: usize,
    last: u64,
) -> usize
    requires { ((k ≤ 1) × JobIn most_length c job) × (o + len ≤ c) }
    ensures { (result ≤ 7) × Puts (job_rows last job c o len) rows.old k rows.new result }
{
    match job {
        Job::Bytes(p) => put_row(rows, k, p + o, len, len, 1),
        Job::Marked(at, p) => {
            let a = put_row(rows, k, p, c, c, 1);
            put_entry(rows, a, at, last)
        }
        Job::New(_, order, count_at, at, p) => {
            let a = put_count(rows, k, order, count_at, 1);
            let b = put_row(rows, a, p, c, c, 1);
            put_entry(rows, b, at, last)
        }
        Job::Table(p) => table_rows(rows, k, p, c, last),
    }
}

// A discard, by the epochs of an entry alone, of an entry before its count, and of that.
pub fn freed_rows(
    rows: &mut [u64],
    k: usize,
    freed: Freed,
    alone: u64,
    first: u64,
    second: u64,
) -> usize
    requires { (k ≤ 1) × FreedIn most_length freed }
    ensures { (result ≤ 3) × Puts (freed_rows alone first second freed) rows.old k rows.new result }
{
    match freed {
        Freed::Entry(at, _) => put_entry(rows, k, at, alone),
        Freed::Both(at, _, order, count_at, _) => {
            let a = put_entry(rows, k, at, first);
            put_count(rows, a, order, count_at, second)
        }
    }
}
