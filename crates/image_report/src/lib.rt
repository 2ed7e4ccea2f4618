// How the small program reads an image, and what it writes of it. Paper 01, "The bench image".
#![tactic(auto)]

mod input;

ghost use Rattle.qcow2_spec.specs.Opened.{Opened};

use qcow2_spec::{Geometry, Verdict};
use std::io;
use std::io::{Eprint, Read, Write};

// The three lines of an accepted image.
fn accepted<W: Write>(out: &mut W, image: &[u8], g: Geometry, v: Verdict) -> io::Result<()>
    requires { Opened g image.now }
{
    let free = qcow2_freecount::free_clusters(image, g);
    image_words::image_line(out, g)?;
    image_words::clusters_line(out, g.clusters - free, free, v)?;
    image_words::verdict_line(out, v)
}

// Writes what is to be said of an image. The scratch has two bytes for each cluster of it.
fn report<W: Write>(out: &mut W, image: &[u8], scratch: &mut [u8]) -> io::Result<()> {
    let v = qcow2::check(image, &image[0..0], scratch);
    match qcow2_header::judge(image, false) {
        Err(why) => image_words::refused(out, why.number()),
        Ok(g) => accepted(out, image, g, v),
    }
}

// The same for input that may be too long.
fn report_read<W: Write>(out: &mut W, input: &[u8], scratch: &mut [u8]) -> io::Result<()> {
    if 65536 < input.len() {
        out.write_all(b"refused\tlong\n")
    } else {
        report(out, input, scratch)
    }
}

// What failed, as the caller names it, a colon and why, on standard error.
pub fn fail<E: Eprint>(rt: &E, what: &str, why: io::Error) {
    let _told = eprintln!(rt; "{what}: {why}");
}

// Reads an image of at most 65,536 bytes and writes what is to be said of it. Where a read or a write fails, standard error says so;
// a failed read leaves nothing written.
pub fn tell<E: Eprint, R: Read, W: Write>(rt: &E, from: &mut R, name: &str, to: &mut W) {
    let mut input = [0u8; 65537];
    let mut scratch = [0u8; 256];
    match input::read_image(from, &mut input) {
        Err(why) => fail(rt, name, why),
        Ok(n) => {
            if let Err(why) = report_read(to, &input[..n], &mut scratch) {
                fail(rt, "standard output", why);
            }
        }
    }
}
