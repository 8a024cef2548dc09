// Tells what the LPDUs of a recording say, which it reads from standard input.
#![tactic(auto)]

ghost use Rattle.std.specs.Prelude.{◌≤◌};

use recording::{Direction, LONGEST_LINE, PartialUnit, RecordingLine, parse_line};
use std::alloc::{AllocError, Global};
use std::{array, env, io};
use text::{LineError, Lines};
use wire::{Fragment, LpduReader, Part};

mod show;

// The most bytes that are kept of a TPDU in fragments, and of an SPDU in several TPDUs.
const TPDU_LIMIT: usize = 1024;

const SPDU_LIMIT: usize = 2048;

// Where an LPDU goes: the slot, who sent it, and the connection.
#[derive(Clone, Copy)]
pub(crate) struct Route {
    slot: u8,
    sender: Direction,
    connection: u8,
}

// What is kept on a connection: a TPDU of each sender in fragments, and an SPDU of the module in several TPDUs.
#[derive(Drop)]
struct Pending {
    host: PartialUnit,
    module: PartialUnit,
    chain: PartialUnit,
}

// What is known at a line: the slot, and what is kept by slot and connection.
#[derive(Drop)]
struct Decoder {
    slot: u8,
    line: u64,
    bytes: Vec<u8>,
    slots: [[Pending; 2]; 4],
}

impl Pending {
    fn new(heap: Global) -> Pending {
        Pending {
            host: PartialUnit::new(heap, TPDU_LIMIT),
            module: PartialUnit::new(heap, TPDU_LIMIT),
            chain: PartialUnit::new(heap, SPDU_LIMIT),
        }
    }

    fn join(
        &mut self,
        rt: &HostRuntime,
        way: Route,
        fragment: Fragment<Part<'_>>,
    ) -> io::Result<()> {
        let Pending {
            host,
            module,
            chain,
        } = self;
        match way.sender {
            Direction::FromHost => join(rt, way, fragment, host, chain),
            Direction::FromModule => join(rt, way, fragment, module, chain),
        }
    }
}

// Joins a fragment to those before it. A whole TPDU is told.
fn join(
    rt: &HostRuntime,
    way: Route,
    fragment: Fragment<Part<'_>>,
    kept: &mut PartialUnit,
    chain: &mut PartialUnit,
) -> io::Result<()> {
    let told = match kept.add(fragment.bytes.bytes) {
        Ok(()) if fragment.more => Ok(()),
        Ok(()) => show::tpdu(rt, way, kept.bytes(), chain),
        Err(refusal) => show::show_dropped(rt, refusal, "TPDU", TPDU_LIMIT),
    };
    if !fragment.more {
        kept.clear();
    }
    told
}

impl Decoder {
    fn new(heap: Global) -> Decoder {
        Decoder {
            slot: 0,
            line: 0,
            bytes: Vec::new(heap),
            slots: array::from_fn(|_| array::from_fn(|_| Pending::new(heap))),
        }
    }

    fn line(&mut self, rt: &HostRuntime, line: &[u8]) -> io::Result<()> {
        self.line = self.line.saturating_add(1);
        match parse_line(line.strip_suffix(b"\r").unwrap_or(line), &mut self.bytes) {
            Ok(RecordingLine::Blank) => Ok(()),
            Ok(RecordingLine::Slot(slot)) => {
                self.slot = slot;
                Ok(())
            }
            Ok(RecordingLine::Lpdu(sender)) => self.lpdu(rt, sender),
            Err(LineError::Bad(reason)) => println!(rt; "line {}: {reason}", self.line),
            Err(LineError::Memory) => Err(io::Error::from(AllocError)),
        }
    }

    fn lpdu(&mut self, rt: &HostRuntime, sender: Direction) -> io::Result<()> {
        let bytes = self.bytes.as_slice();
        let way = Route {
            slot: self.slot,
            sender,
            connection: connection(bytes),
        };
        let read = LpduReader::new(bytes).fragment(u16::MAX, way.connection);
        show::link(rt, way, bytes.len(), read)?;
        let Ok(fragment) = read else {
            return Ok(());
        };
        let Some(slot) = self.slots.get_mut(way.slot as usize) else {
            return Ok(());
        };
        match slot.get_mut(way.connection as usize - 1) {
            Some(pending) => pending.join(rt, way, fragment),
            None => Ok(()),
        }
    }
}

// The connection that an LPDU is read for: 2 where it says so, else 1.
fn connection(lpdu: &[u8]) -> u8
    ensures { 1 ≤ result }
{
    match lpdu {
        [2, ..] => 2,
        _ => 1,
    }
}

fn help(rt: &HostRuntime) -> io::Result<()> {
    println!(rt; "decode reads a recording from standard input, a line at a time:")?;
    println!(rt; "  > 01 00 82 01 01    an LPDU that the host sent")?;
    println!(rt; "  < 01 00 80 02 01 00 an LPDU that the module sent")?;
    println!(rt; "  slot 1              the slot of the lines that follow, 0 to 3; 0 at first")?;
    println!(rt; "  # ..                a comment; blank lines are passed over too")
}

// A carriage return at the end of the longest line is read too.
fn decode(rt: &HostRuntime) -> io::Result<()> {
    let mut decoder = Decoder::new(rt.alloc());
    let mut lines = Lines::new(rt.alloc(), rt.stdin(), LONGEST_LINE + 1)?;
    let mut line = Vec::new(rt.alloc());
    while lines.read_into(&mut line)? {
        decoder.line(rt, line.as_slice())?;
    }
    Ok(())
}

fn main(rt: HostRuntime) -> io::Result<()> {
    if env::args(&rt)?.skip(1).any(|arg| arg.as_str() == "--help") {
        help(&rt)
    } else {
        decode(&rt)
    }
}
