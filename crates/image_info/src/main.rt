// Reads an image of at most 65,536 bytes from standard input and writes what is to be said of it.
#![tactic(auto)]

fn main(rt: HostRuntime) {
    image_report::tell(&rt, &mut rt.stdin(), "standard input", &mut rt.stdout());
}
