// An image read to its end.
ghost use Rattle.std.specs.Io.{ReadsAtMost};

use std::io;
use std::io::{ErrorKind, Read};

fn is_interrupted(got: &io::Result<usize>) -> bool {
    match got {
        Ok(_) => false,
        Err(e) => e.kind() == ErrorKind::Interrupted,
    }
}

// One read, made again where a signal interrupted it. A proved loop has to end, so its turns are counted, up to a number that no
// run reaches.
fn read_once<R: Read>(from: &mut R, part: &mut [u8]) -> io::Result<usize>
    ensures { ReadsAtMost result part.new }
{
    for _ in 0..u64::MAX {
        let got = from.read(part);
        if !is_interrupted(&got) {
            return got;
        }
    }
    from.read(part)
}

// Reads until the input ends or the buffer is full, and says how many bytes that were. A read that gives less than was asked, as from a pipe, is not
// the end.
pub fn read_image<R: Read>(from: &mut R, buf: &mut [u8]) -> io::Result<usize>
    ensures { ReadsAtMost result buf.new }
{
    let mut done = 0;
    // A `while`: how much a read gives is known only after it.
    while done < buf.len() {
        let n = read_once(from, &mut buf[done..])?;
        if n == 0 {
            break;
        }
        done += n;
    }
    Ok(done)
}
