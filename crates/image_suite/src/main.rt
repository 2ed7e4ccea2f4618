// Writes, for each image file that an argument names, the name and what the small program says of it.
#![tactic(auto)]

use std::{env, fs, io};

fn image(rt: &HostRuntime, name: &str) {
    match fs::open(rt, name) {
        Err(why) => image_report::fail(rt, name, why),
        Ok(file) => {
            let mut file = file;
            image_report::tell(rt, &mut file, name, &mut rt.stdout());
        }
    }
}

// The image file of an argument.
fn named(rt: &HostRuntime, name: &str) -> io::Result<()> {
    println!(rt; "{name}")?;
    image(rt, name);
    Ok(())
}

fn main(rt: HostRuntime) -> io::Result<()> {
    for name in env::args(&rt)?.skip(1) {
        named(&rt, name.as_str())?;
    }
    Ok(())
}
