// Answers calls by lines as the program `shelf` does, over one resource more, whose reply is as long as a resource may send.
#![tactic(auto)]

mod longest;

use crate::longest::LongestReply;
use standard::{Pair, STANDARD_IDENTIFIERS, standard_resources};
use std::io;

fn help(rt: &HostRuntime) -> io::Result<()> {
    println!(rt;
        "limits reads calls as shelf does. Its host has a resource C0100001 too, which answers 9FFF00 with 124 bytes."
    )?;
    console::help(rt)
}

fn main(rt: HostRuntime) -> io::Result<()> {
    if console::asks_help(&rt)? {
        help(&rt)
    } else {
        let resources = Pair::new(
            standard_resources(&STANDARD_IDENTIFIERS),
            LongestReply::resource(),
        );
        console::play(&rt, resources, rt.stdin())
    }
}
