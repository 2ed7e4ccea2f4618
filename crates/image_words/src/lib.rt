// The lines that are written of an image. Paper 01, "The bench image". What writes stops at the first write that fails, and answers
// with its error.
#![tactic(auto)]

ghost use Rattle.std.specs.Prelude.{◌≤◌};
ghost use Rattle.qcow2_spec.specs.Header.{most_bits};

use qcow2_spec::{Geometry, Verdict};
use std::io::Write;
use std::{fmt, io};

// The leaked clusters: none where the image is sound, and no number where it is damaged.
#[derive(Drop)]
struct Leaked(Verdict);

impl fmt::Display for Leaked {
    fn fmt<W: fmt::Write>(&self, f: &mut fmt::Formatter<W>) -> fmt::Result {
        match self.0 {
            Verdict::Sound => f.write_str("0"),
            Verdict::Leaks(n) => write!(f, "{n}"),
            _ => f.write_str("-"),
        }
    }
}

// The snapshot whose L1 table has that number; nothing for the active one.
#[derive(Drop)]
struct Table(usize);

impl fmt::Display for Table {
    fn fmt<W: fmt::Write>(&self, f: &mut fmt::Formatter<W>) -> fmt::Result {
        match self.0 {
            0 => Ok(()),
            t => write!(f, "\t{}", t - 1),
        }
    }
}

// A verdict with what it names: an entry by its L1 index, its L2 index or none, and its table.
#[derive(Drop)]
struct Said(Verdict);

impl fmt::Display for Said {
    fn fmt<W: fmt::Write>(&self, f: &mut fmt::Formatter<W>) -> fmt::Result {
        match self.0 {
            Verdict::Sound => f.write_str("sound"),
            Verdict::Leaks(n) => write!(f, "leaks\t{n}"),
            Verdict::BadL1(t, i) => write!(f, "damaged\tentry\t{i}\t-{}", Table(t)),
            Verdict::BadL2(t, i, j) => write!(f, "damaged\tentry\t{i}\t{j}{}", Table(t)),
            Verdict::Shared(k) => write!(f, "damaged\tshared\t{k}"),
            Verdict::Short(k) => write!(f, "damaged\tshort\t{k}"),
            Verdict::MarkL1(i) => write!(f, "damaged\tmark\t{i}\t-"),
            Verdict::MarkL2(i, j) => write!(f, "damaged\tmark\t{i}\t{j}"),
            Verdict::Refused(k) => write!(f, "{k}"),
        }
    }
}

pub fn refused<W: Write>(out: &mut W, k: u8) -> io::Result<()> {
    writeln!(out, "refused\t{k}")
}

// Cluster size, clusters, disk size and L1 entries.
pub fn image_line<W: Write>(out: &mut W, g: Geometry) -> io::Result<()>
    requires { g.bits ≤ most_bits }
{
    let c = power::power(g.bits);
    writeln!(
        out,
        "image\t{}\t{c}\t{}\t{}\t{}",
        g.version, g.clusters, g.size, g.l1size
    )
}

// Counts that are not 0, counts that are 0, and leaked clusters.
pub fn clusters_line<W: Write>(
    out: &mut W,
    used: usize,
    free: usize,
    v: Verdict,
) -> io::Result<()> {
    writeln!(out, "clusters\t{used}\t{free}\t{}", Leaked(v))
}

pub fn verdict_line<W: Write>(out: &mut W, v: Verdict) -> io::Result<()> {
    writeln!(out, "verdict\t{}", Said(v))
}
