// What a slot keeps.
ghost use Rattle.std.specs.Prelude.{◌≡◌, ◌+◌, ◌<◌, ◌&&◌, leb, if◌then◌else◌, length, is_some, Some, None, nat_le, IfSome};
ghost use Rattle.std.specs.Borrow.{sem};
ghost use Rattle.std.specs.Option.{option_map};
ghost use Rattle.resource.specs.NumberTables.{session_numbers, first};
ghost use Rattle.protocol.specs.Limits.{fragment_limit, data_limit};
ghost use Rattle.protocol.specs.SlotRecord.{append_fragment, new_slot, with_row, with_module, without_module, first_free_number, has_greeting_due};
ghost use Rattle.slot.specs.ConnectionViews.{conn_of, part_of, append_data};
ghost use Rattle.slot.specs.AddIfFits.{add_if_fits};
ghost use Rattle.slot.specs.ConnectionChanges.{apply_change};
ghost use Rattle.slot.specs.RecordViews.{slot_of, size_of, alter, numbered, numbered_row};
ghost use Rattle.slot.specs.ConnectionLending.{LendsConnection};

use crate::agreed_size::AgreedSize;
use crate::connection::{Change, Connection};
use protocol::{SessionRow, State};
use resource::{ConnectionId, SessionNumber};

/// An open session with its number.
#[derive(Clone, Copy)]
pub struct NumberedRow {
    pub number: SessionNumber,
    pub row: SessionRow,
}

/// What a slot keeps: the agreed size where it has a module, connections 1 and 2, and sessions 1 to 16. Its own functions
/// change one part each and promise nothing between them; plug, pull, end and expire of a `SlotContext`, `feed` and `next`
/// keep it sound.
#[derive(Clone, Copy)]
pub struct Record {
    // There is a module, with this agreed size.
    agreed: Option<AgreedSize>,
    // Connections 1 and 2.
    one: Connection,
    two: Connection,
    // The session with number n is at n - 1.
    rows: [Option<SessionRow>; 16],
}

#[tactic(auto, using(crate::proofs::RecordChanges::row_write), unfolding(crate::specs::RecordViews::slot_of))]
impl Record {
    /// The record of a slot of a new host: absent, with both connections Idle and no session.
    pub fn new() -> Record
        ensures { slot_of result ≡ new_slot }
    {
        Record {
            agreed: None,
            one: Connection::new(),
            two: Connection::new(),
            rows: [None; 16],
        }
    }

    /// The agreed size, where there is a module.
    pub fn agreed(&self) -> Option<AgreedSize>
        ensures present { is_some result ≡ (slot_of self.now).present }
        ensures size { size_of result ≡ (slot_of self.now).size }
    {
        self.agreed
    }

    /// The connection with this number.
    pub fn connection(&self, c: ConnectionId) -> &Connection
        ensures { conn_of result.now ≡ (slot_of self.now).conn c.number }
    {
        match c.get() {
            1 => &self.one,
            _ => &self.two,
        }
    }

    // The connection, to be changed.
    fn connection_mut(&mut self, c: ConnectionId) -> &mut Connection
        ensures* writes_back { sem 𝓛 (LendsConnection self.entry c.number result) }
        ensures value { conn_of result.now ≡ (slot_of self.old).conn c.number }
    {
        match c.get() {
            1 => &mut self.one,
            _ => &mut self.two,
        }
    }

    /// The session with this number, if it is open.
    pub fn row(&self, n: SessionNumber) -> Option<SessionRow>
        ensures { result ≡ (slot_of self.now).rows n.number }
    {
        self.rows[n.get() as usize - 1]
    }

    /// Enters a session under a number, over any that was there, or takes it out. No resource is told.
    pub fn set_row(&mut self, n: SessionNumber, row: Option<SessionRow>)
        ensures { slot_of self.new ≡ with_row n.number row (slot_of self.old) }
    {
        self.rows[n.get() as usize - 1] = row;
    }

    /// Changes one connection, and nothing else.
    #[inline(always)]
    #[tactic(auto, using(crate::proofs::RecordChanges::line_write))]
    pub fn change(&mut self, c: ConnectionId, change: Change)
        ensures { slot_of self.new ≡ alter c.number (apply_change change) (slot_of self.old) }
    {
        self.connection_mut(c).change(change);
    }

    /// Adds a fragment to those of the connection, if all of them have at most 1,024 bytes, and tells whether they have.
    /// Where they would have more, nothing changes.
    pub fn push_fragment(&mut self, c: ConnectionId, more: &[u8]) -> bool
        ensures { add_if_fits (nat_le (length ((slot_of self.old).conn c.number).fragments + length more.now) fragment_limit) (alter c.number (append_fragment more.now)) (slot_of self.old) ≡ (result, slot_of self.new) }
    {
        self.connection_mut(c).push_fragment(more)
    }

    /// Adds `n` bytes of the connection's fragments, from `start` on (or as many as there are), to its data, if these have at
    /// most 2,048 bytes then, and tells whether they have. Where they would have more, nothing changes.
    pub fn push_data(&mut self, c: ConnectionId, start: usize, n: usize) -> bool
        ensures { add_if_fits (nat_le (length ((slot_of self.old).conn c.number).session_data + length (part_of start n ((slot_of self.old).conn c.number))) data_limit) (alter c.number (append_data start n)) (slot_of self.old) ≡ (result, slot_of self.new) }
    {
        self.connection_mut(c).push_data(start, n)
    }

    /// A module is there, with this agreed size: connection 1 is Create due and 2 is Idle. A turn that is out stays out.
    pub fn plug(&mut self, size: AgreedSize)
        ensures { slot_of self.new ≡ with_module size.bytes (slot_of self.old) }
    {
        self.one.clear(State::CreateDue, self.one.is_turn_out());
        self.two.clear(State::Idle, self.two.is_turn_out());
        self.agreed = Some(size);
    }

    /// No module is there: both connections are Idle, and no session is left. A turn that is out stays out.
    pub fn pull(&mut self)
        ensures { slot_of self.new ≡ without_module (slot_of self.old) }
    {
        self.one.clear(State::Idle, self.one.is_turn_out());
        self.two.clear(State::Idle, self.two.is_turn_out());
        self.agreed = None;
        self.rows = [None; 16];
    }

    /// The session with this number, if it is open; none for a number outside 1 to 16.
    pub fn session(&self, number: u16) -> Option<NumberedRow>
        ensures { numbered_row result ≡ numbered number ((slot_of self.now).rows number) }
    {
        let number = session_number(number)?;
        let row = self.row(number)?;
        Some(NumberedRow { number, row })
    }

    /// The least number from 1 to 16 that no open session has, if there is one.
    pub fn first_free(&self) -> Option<SessionNumber>
        ensures { option_map (λ n. n.number) result ≡ first_free_number (slot_of self.now).rows }
    {
        number_at(self.rows.iter().position(|row| row.is_none()))
    }

    /// The least number of a session on the connection whose greeting is due, if there is one.
    pub fn first_greeting(&self, c: ConnectionId) -> Option<SessionNumber>
        ensures { option_map (λ n. n.number) result ≡ first (λ n. has_greeting_due c.number ((slot_of self.now).rows n)) session_numbers }
    {
        number_at(self.rows.iter().position(|row| greets(c.get(), *row)))
    }
}

/// The number of a session as an SPDU tells it, in two bytes, if it is from 1 to 16, else none.
pub fn session_number(number: u16) -> Option<SessionNumber>
    ensures { option_map (λ n. n.number) result ≡ (if leb 1 number && nat_le number 16 then Some number else None) }
{
    u8::try_from(number).ok().and_then(SessionNumber::new)
}

// The number of the session whose row has this index.
fn number_at(place: Option<usize>) -> Option<SessionNumber>
    requires { IfSome place (λ k. k < 16) }
    ensures { option_map (λ n. n.number) result ≡ option_map (λ k. k + 1) place }
{
    SessionNumber::new(place? as u8 + 1)
}

// Whether a session is open on a connection, and its greeting is due.
fn greets(c: u8, row: Option<SessionRow>) -> bool
    ensures { result ≡ has_greeting_due c row }
{
    row.is_some_and(|r| r.greeting_due && r.connection == c)
}
