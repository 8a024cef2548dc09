// A console for a player of any resource: a call a line in, an answer a line out.
use crate::outcome::PrintedAnswer;
use crate::request::{LONGEST, Request, parse};
use host::Player;
use resource::Resource;
use std::alloc::AllocError;
use std::io::Read;
use std::{env, io};
use text::{LineError, Lines};

/// Plays the calls of an input, one a line, to a new player over a resource, and answers each in a line before it
/// reads the next. At the end it tells the sessions that are open and the turns that are out. An error of reading,
/// printing or memory ends it. In each case the turns that are out expire.
pub fn play<R: Resource + Drop, I: Read + Drop>(
    rt: &(impl Print + AllocGlobal),
    resource: R,
    input: I,
) -> io::Result<()> {
    let mut console = Console::new(resource);
    let played = console.play(rt, input);
    console.finish();
    played
}

// A player, which has to be finished, with how many lines were read and how many calls made.
struct Console<R> {
    player: Player<R>,
    lines: u64,
    calls: u64,
}

impl<R: Resource + Drop> Console<R> {
    fn finish(self) {
        let Console {
            player,
            lines: _,
            calls: _,
        } = self;
        player.finish();
    }
}

impl<R: Resource> Console<R> {
    fn new(resource: R) -> Console<R> {
        Console {
            player: Player::new(resource),
            lines: 0,
            calls: 0,
        }
    }

    fn play<I: Read + Drop>(
        &mut self,
        rt: &(impl Print + AllocGlobal),
        input: I,
    ) -> io::Result<()> {
        self.read(rt, input)?;
        self.sessions(rt)?;
        self.turns(rt)
    }

    fn read<I: Read + Drop>(
        &mut self,
        rt: &(impl Print + AllocGlobal),
        input: I,
    ) -> io::Result<()> {
        for line in Lines::new(rt.alloc(), input, LONGEST)? {
            self.line(rt, line?.as_slice())?;
        }
        Ok(())
    }

    fn line(&mut self, rt: &(impl Print + AllocGlobal), line: &[u8]) -> io::Result<()> {
        self.lines = self.lines.saturating_add(1);
        match parse(line, rt.alloc()) {
            Ok(Some(request)) => self.answer(rt, &request),
            Ok(None) => Ok(()),
            Err(LineError::Bad(reason)) => println!(rt; "line {}: {reason}", self.lines),
            Err(LineError::Memory) => Err(io::Error::from(AllocError)),
        }
    }

    fn answer(&mut self, rt: &(impl Print + AllocGlobal), request: &Request) -> io::Result<()> {
        self.calls = self.calls.saturating_add(1);
        let Request { call, room } = request;
        let mut out = vec![in rt.alloc(); 0u8; *room as usize]?;
        let answer = self.player.call(call.as_deref(), out.as_mut_slice());
        let out = out.as_slice();
        println!(rt; "{} {call} {}", self.calls, PrintedAnswer { answer, out })
    }

    // The open sessions by slot and number.
    fn sessions(&self, rt: &impl Print) -> io::Result<()> {
        for slot in 0..4 {
            for number in 1..=16 {
                if let Some(row) = self.player.host().session(slot, number) {
                    println!(rt;
                        "session {slot} {} {number} {:08X}",
                        row.connection, row.identifier
                    )?;
                }
            }
        }
        Ok(())
    }

    // The turns that are out; `finish` has them expire.
    fn turns(&self, rt: &impl Print) -> io::Result<()> {
        for slot in 0..4 {
            for connection in 1..=2 {
                let status = self.player.host().connection(slot, connection);
                if status.is_some_and(|status| status.out) {
                    println!(rt; "turn {slot} {connection} expired")?;
                }
            }
        }
        Ok(())
    }
}

/// Whether an argument of the command line is `--help`.
pub fn asks_help(rt: &HostRuntime) -> io::Result<bool> {
    Ok(env::args(rt)?.skip(1).any(|arg| arg.as_str() == "--help"))
}

// The forms of a call, and what comes at the end.
const FORMS: [&str; 9] = [
    "  clock HH HH HH HH HH            the time: day number (two bytes), hour, minute and second",
    "  plug SLOT SIZE                  a module is in a slot, 0 to 3, with this agreed size",
    "  pull SLOT                       the module of a slot is gone",
    "  end SLOT CONNECTION             a connection, 1 or 2, is to be deleted",
    "  next SLOT CONNECTION [ROOM]     writes the command that is due into ROOM bytes, 152 if not told",
    "  feed SLOT CONNECTION HH HH ..   an LPDU of the module comes in",
    "  expire SLOT CONNECTION          no answer of the module comes in",
    "  # ..                            a comment; blank lines are passed over too",
    "At the end of the input it tells the open sessions, and the turns that are out.",
];

/// Prints the form of each call, and what is told at the end of the input.
pub fn help(rt: &impl Print) -> io::Result<()> {
    for line in FORMS {
        println!(rt; "{line}")?;
    }
    Ok(())
}
