// Runs exchanges between a host and a scripted module in memory, and prints what it counted. `tools/measure` counts the instructions of a run.
#![tactic(auto)]

use host::{FeedOutcome, Host, NextCommand};
use protocol::Refusal;
use resource::Resource;
use standard::{STANDARD_IDENTIFIERS, StandardResources, standard_resources};
use std::mem::size_of;
use std::{env, io};

// What the module answers on connection 1, each in one LPDU: that it is there, that it has nothing to send, that it has something.
const CREATED: [u8; 9] = [1, 0, 0x83, 1, 1, 0x80, 2, 1, 0x80];

const QUIET: [u8; 6] = [1, 0, 0x80, 2, 1, 0];

const WAITING: [u8; 6] = [1, 0, 0x80, 2, 1, 0x80];

// It asks for a session of Date-Time, which has no greeting that would have to be written before the next poll.
const OPEN: [u8; 15] = [1, 0, 0xA0, 7, 1, 0x91, 4, 0, 0x24, 0, 0x41, 0x80, 2, 1, 0];

// It gives a session back.
fn close(number: u8) -> [u8; 13] {
    [1, 0, 0xA0, 5, 1, 0x95, 2, 0, number, 0x80, 2, 1, 0]
}

#[derive(Clone, Copy)]
enum Work {
    Poll,
    Session,
}

// What is to be run, with so many sessions open before.
#[derive(Clone, Copy)]
struct Order {
    work: Work,
    count: u64,
    open: u8,
}

impl Order {
    // The words of the command line, if they say what is to be run.
    fn read(work: &str, count: &str, open: &str) -> Option<Order> {
        let (work, most) = match work {
            "poll" => (Work::Poll, 16),
            "session" => (Work::Session, 15),
            _ => return None,
        };
        let count = count.parse().ok()?;
        let open = open.parse().ok().filter(|open| *open <= most)?;
        Some(Order { work, count, open })
    }
}

#[derive(Drop)]
struct Bench<R> {
    host: Host<R>,
    exchanges: u64,
    written: u64,
}

impl<R: Resource> Bench<R> {
    fn new(resource: R) -> Bench<R> {
        Bench {
            host: Host::new(resource),
            exchanges: 0,
            written: 0,
        }
    }

    // The command that is due goes out, and the module answers it.
    fn exchange(&mut self, out: &mut [u8], answer: &[u8]) -> Result<(), Refusal> {
        let NextCommand { length, turn } = self.host.next(0, 1, out)?;
        self.exchanges = self.exchanges.wrapping_add(1);
        self.written = self.written.wrapping_add(length as u64);
        let Some(turn) = turn else {
            return Ok(());
        };
        match self.host.feed(turn, answer) {
            FeedOutcome::Done => Ok(()),
            FeedOutcome::More(turn) => {
                self.host.expire(turn);
                Ok(())
            }
            FeedOutcome::Refused(turn, refusal) => {
                self.host.expire(turn);
                Err(refusal)
            }
        }
    }

    // A module is plugged, and opens so many sessions.
    fn begin(&mut self, out: &mut [u8], open: u8) -> Result<(), Refusal> {
        self.host.plug(0, 256)?;
        self.exchange(out, &CREATED)?;
        for _ in 0..open {
            self.exchange(out, &OPEN)?;
            self.exchange(out, &WAITING)?;
        }
        self.exchange(out, &WAITING)
    }

    // A poll, and a status that says that nothing waits.
    fn poll(&mut self, out: &mut [u8], count: u64) -> Result<(), Refusal> {
        self.exchange(out, &QUIET)?;
        for _ in 0..count {
            self.exchange(out, &QUIET)?;
        }
        Ok(())
    }

    // Four exchanges open a session and end it.
    fn session(&mut self, out: &mut [u8], count: u64, number: u8) -> Result<(), Refusal> {
        let close = close(number);
        for _ in 0..count / 4 {
            self.exchange(out, &OPEN)?;
            self.exchange(out, &WAITING)?;
            self.exchange(out, &close)?;
            self.exchange(out, &WAITING)?;
        }
        Ok(())
    }

    fn run(&mut self, order: Order) -> Result<(), Refusal> {
        let mut out = [0; 152];
        self.begin(&mut out, order.open)?;
        match order.work {
            Work::Poll => self.poll(&mut out, order.count),
            Work::Session => self.session(&mut out, order.count, order.open.saturating_add(1)),
        }
    }

    fn open_sessions(&self) -> usize {
        (1..=16)
            .filter(|number| self.host.session(0, *number).is_some())
            .count()
    }
}

fn help(rt: &HostRuntime) -> io::Result<()> {
    println!(rt; "bench WORK COUNT OPEN runs exchanges between a host and a module in memory:")?;
    println!(rt; "  poll     COUNT polls and statuses, with OPEN sessions open, 0 to 16")?;
    println!(rt;
        "  session  sessions that open and end, four exchanges each, COUNT in all, with OPEN others open, 0 to 15"
    )
}

// `memory` is what a host over the resource takes.
fn run_and_report<R: Resource + Drop>(
    rt: &HostRuntime,
    resource: R,
    memory: usize,
    order: Order,
) -> io::Result<()> {
    let mut bench = Bench::new(resource);
    if let Err(refusal) = bench.run(order) {
        return println!(rt; "the host refused with {}", refusal.number());
    }
    println!(rt; "{} exchanges", bench.exchanges)?;
    println!(rt; "{} bytes written", bench.written)?;
    println!(rt; "{} sessions open at the end", bench.open_sessions())?;
    println!(rt; "{memory} bytes of memory in a host")
}

fn main(rt: HostRuntime) -> io::Result<()> {
    let mut args = env::args(&rt)?.skip(1);
    let (Some(work), Some(count), Some(open)) = (args.next(), args.next(), args.next()) else {
        return help(&rt);
    };
    match Order::read(work.as_str(), count.as_str(), open.as_str()) {
        Some(order) => run_and_report(
            &rt,
            standard_resources(&STANDARD_IDENTIFIERS),
            size_of::<Host<StandardResources>>(),
            order,
        ),
        None => help(&rt),
    }
}
