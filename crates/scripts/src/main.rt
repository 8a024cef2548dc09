// Plays scripts: of each file that standard input names, a name a line, what shelf prints for it.
#![tactic(auto)]

use standard::{STANDARD_IDENTIFIERS, standard_resources};
use std::{fs, io};

fn help(rt: &HostRuntime) -> io::Result<()> {
    println!(rt;
        "scripts reads names of files from standard input, one a line, and plays each to a new host as shelf plays its input:"
    )?;
    console::help(rt)
}

fn script(rt: &HostRuntime, name: &str) -> io::Result<()> {
    println!(rt; "{name}")?;
    console::play(
        rt,
        standard_resources(&STANDARD_IDENTIFIERS),
        fs::open(rt, name)?,
    )
}

fn scripts(rt: &HostRuntime) -> io::Result<()> {
    for name in rt.lines(rt.alloc()) {
        script(rt, name?.as_str())?;
    }
    Ok(())
}

fn main(rt: HostRuntime) -> io::Result<()> {
    if console::asks_help(&rt)? {
        help(&rt)
    } else {
        scripts(&rt)
    }
}
