// A host for a shelf of four slots: a call a line on standard input, an answer a line on standard output.
#![tactic(auto)]

use standard::{STANDARD_IDENTIFIERS, standard_resources};
use std::io;

fn help(rt: &HostRuntime) -> io::Result<()> {
    println!(rt;
        "shelf reads calls to a host of four slots from standard input, one a line, and answers each in a line:"
    )?;
    console::help(rt)
}

fn main(rt: HostRuntime) -> io::Result<()> {
    if console::asks_help(&rt)? {
        help(&rt)
    } else {
        console::play(&rt, standard_resources(&STANDARD_IDENTIFIERS), rt.stdin())
    }
}
