// A connection of a slot.
ghost use Rattle.std.specs.Prelude.{◌≡◌, ◌+◌, false, length, take, drop, nat_le};
ghost use Rattle.std.specs.Option.{option_map};
ghost use Rattle.protocol.specs.Limits.{fragment_limit, data_limit};
ghost use Rattle.protocol.specs.SlotRecord.{cleared_connection, after_command, append_fragment, after_unit};
ghost use Rattle.slot.specs.ConnectionViews.{conn_of, owed_of, part_of, append_data};
ghost use Rattle.slot.specs.AddIfFits.{add_if_fits};
ghost use Rattle.slot.specs.ConnectionChanges.{apply_change};

use crate::buffer::Buffer;
use protocol::{OwedCommand, State};
use resource::ApduBuf;

// The most bytes that are kept of a TPDU in fragments, and of an SPDU in several TPDUs.
const FRAGMENTS: usize = 1024;

const DATA: usize = 2048;

/// What becomes of a connection: a change for `Record::change`.
#[derive(Clone, Copy)]
pub enum Change {
    /// It is in this state, its turn is out or not, and it keeps nothing else.
    Clear(State, bool),
    /// A command was written: it is in this state, nothing is owed, and its turn is out.
    Send(State),
    /// It owes this command, and no other.
    Owe(OwedCommand<ApduBuf>),
    /// Its turn is out no more.
    Unmark,
    /// The first so many bytes of the fragments are left.
    Cut(usize),
    /// The first so many bytes of the data are left.
    CutData(usize),
    /// A whole TPDU was heard, with this DA: it is Active, its turn is not out, it has no fragments, and the data stay.
    Hear(bool),
    /// As `Hear`, but the data were read: it has none.
    HearAndReadData(bool),
}

/// A transport connection of a slot. It is changed through its record.
#[derive(Clone, Copy)]
pub struct Connection {
    state: State,
    // Its turn is out.
    out: bool,
    // The module has data to send (DA).
    available: bool,
    owed: Option<OwedCommand<ApduBuf>>,
    fragments: Buffer<FRAGMENTS>,
    session_data: Buffer<DATA>,
}

// The `n` bytes from `start` on, or as many of them as there are.
fn part(bytes: &[u8], start: usize, n: usize) -> &[u8]
    ensures { result.now ≡ take n (drop start bytes.now) }
{
    let rest = bytes.get(start..).unwrap_or(&[]);
    rest.get(..n).unwrap_or(rest)
}

impl Connection {
    pub(crate) fn new() -> Connection
        ensures { conn_of result ≡ cleared_connection State.Idle false }
    {
        Connection {
            state: State::Idle,
            out: false,
            available: false,
            owed: None,
            fragments: Buffer::new(),
            session_data: Buffer::new(),
        }
    }

    /// Its state.
    pub fn state(&self) -> State
        ensures { result ≡ (conn_of self.now).state }
    {
        self.state
    }

    /// Whether its turn is out: a command was written, and neither the module's answer nor an expiry has come in.
    pub fn is_turn_out(&self) -> bool
        ensures { result ≡ (conn_of self.now).out }
    {
        self.out
    }

    /// Whether the module has data to send (DA).
    pub fn is_available(&self) -> bool
        ensures { result ≡ (conn_of self.now).available }
    {
        self.available
    }

    /// The command that it owes, if any.
    pub fn owed(&self) -> Option<OwedCommand<ApduBuf>>
        ensures { option_map owed_of result ≡ (conn_of self.now).owed }
    {
        self.owed
    }

    /// The fragments of a TPDU of which the rest is to come, at most 1,024 bytes.
    pub fn fragments(&self) -> &[u8]
        ensures { result.now ≡ (conn_of self.now).fragments }
    {
        self.fragments.as_slice()
    }

    /// The data of an SPDU of which the rest is to come, at most 2,048 bytes.
    pub fn session_data(&self) -> &[u8]
        ensures { result.now ≡ (conn_of self.now).session_data }
    {
        self.session_data.as_slice()
    }

    #[inline(always)]
    pub(crate) fn change(&mut self, change: Change)
        ensures { conn_of self.new ≡ apply_change change (conn_of self.old) }
    {
        match change {
            Change::Clear(state, out) => self.clear(state, out),
            Change::Send(state) => self.send(state),
            Change::Owe(owed) => self.owed = Some(owed),
            Change::Unmark => self.out = false,
            Change::Cut(n) => self.fragments.truncate(n),
            Change::CutData(n) => self.session_data.truncate(n),
            Change::Hear(available) => self.hear(available),
            Change::HearAndReadData(available) => {
                self.hear(available);
                self.session_data.clear();
            }
        }
    }

    // It is in this state, its turn is out or not, and it keeps nothing else.
    pub(crate) fn clear(&mut self, state: State, out: bool)
        ensures { conn_of self.new ≡ cleared_connection state out }
    {
        self.state = state;
        self.out = out;
        self.available = false;
        self.owed = None;
        self.fragments.clear();
        self.session_data.clear();
    }

    fn send(&mut self, state: State)
        ensures { conn_of self.new ≡ after_command state (conn_of self.old) }
    {
        self.state = state;
        self.out = true;
        self.owed = None;
    }

    fn hear(&mut self, available: bool)
        ensures { conn_of self.new ≡ after_unit available (conn_of self.old).session_data (conn_of self.old) }
    {
        self.state = State::Active;
        self.out = false;
        self.available = available;
        self.fragments.clear();
    }

    // Adds a fragment to those before it, if all of them have at most 1,024 bytes, and tells whether they have.
    pub(crate) fn push_fragment(&mut self, more: &[u8]) -> bool
        ensures { add_if_fits (nat_le (length (conn_of self.old).fragments + length more.now) fragment_limit) (append_fragment more.now) (conn_of self.old) ≡ (result, conn_of self.new) }
    {
        self.fragments.add(more)
    }

    // Adds `n` bytes of the fragments, from `start` on, to the data, if these have at most 2,048 bytes then, and tells whether they have.
    pub(crate) fn push_data(&mut self, start: usize, n: usize) -> bool
        ensures { add_if_fits (nat_le (length (conn_of self.old).session_data + length (part_of start n (conn_of self.old))) data_limit) (append_data start n) (conn_of self.old) ≡ (result, conn_of self.new) }
    {
        let more = part(self.fragments.as_slice(), start, n);
        self.session_data.add(more)
    }
}
