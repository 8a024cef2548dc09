// Calls on a slot's record beside a resource: those that end connections and sessions.
ghost use Rattle.std.specs.Prelude.{◌≡◌, false, Ok, None, if◌then◌else◌};
ghost use Rattle.resource.specs.NumberTables.{session_numbers};
ghost use Rattle.protocol.specs.SlotCalls.{close_session, close_sessions, leave as leaving, plug as plug_call, pull as pull_call, end as end_call, expire as expire_call, done};
ghost use Rattle.protocol.specs.SlotRecord.{is_open_on};
ghost use Rattle.slot.specs.RecordViews.{slot_of, numbered, numbered_row};
ghost use Rattle.slot.specs.Refinement.{plain_answer};
ghost use Rattle.slot.specs.ContextRefinement.{ContextRefinesStep, ContextRefinesCall};

use crate::agreed_size::AgreedSize;
use crate::connection::Change;
use crate::record::{NumberedRow, Record};
use protocol::{Refusal, State};
use resource::{ConnectionId, Resource};

// The session with the number, if it is on the connection.
pub fn session_on(slot: &Record, c: ConnectionId, number: u16) -> Option<NumberedRow>
    ensures { let row = (slot_of slot.now).rows number in numbered_row result ≡ (if is_open_on c.number row then numbered number row else None) }
{
    slot.session(number)
        .filter(|session| session.row.connection == c.get())
}

/// A slot's record, with the resource that is told of its sessions and the slot's number there.
#[derive(Drop)]
pub struct SlotContext<'a, R> {
    /// The record of the slot.
    pub slot: &'a mut Record,
    /// The resource that is told; a call alters nothing of it for other slots.
    pub resource: &'a mut R,
    /// The number of the slot, as the resource is told it.
    pub at: u8,
}

impl<'a, R: Resource> SlotContext<'a, R> {
    /// The context of a record, over a resource that knows the slot by this number.
    pub fn new(slot: &'a mut Record, resource: &'a mut R, at: u8) -> SlotContext<'a, R>
        ensures { result ≡ record { slot = slot.entry; resource = resource.entry; at = at } }
    {
        SlotContext { slot, resource, at }
    }

    /// Ends the session with this number and tells the resource, if it is open on the connection; else nothing changes.
    pub fn close_session(&mut self, c: ConnectionId, number: u16)
        ensures { ContextRefinesStep R.Resource.meaning (λ made k st. close_session R.Resource.meaning made k c.number (st.slot.rows number) number st) self.old self.new }
    {
        if let Some(session) = session_on(self.slot, c, number) {
            self.resource
                .closed(self.at, session.row.identifier, session.number.get());
            self.slot.set_row(session.number, None);
        }
    }

    // The sessions of the connection end, in rising order of number.
    fn close_sessions(&mut self, c: ConnectionId)
        ensures { ContextRefinesStep R.Resource.meaning (λ made k. close_sessions R.Resource.meaning made k c.number session_numbers) self.old self.new }
    {
        for number in 1..17 {
            self.close_session(c, number);
        }
    }

    /// A connection leaves Active, or becomes Idle: it is in this state and keeps nothing else, its turn is not out, and its
    /// sessions end in rising order of number, each told to the resource.
    pub fn leave(&mut self, c: ConnectionId, state: State)
        ensures { ContextRefinesStep R.Resource.meaning (λ made k. leaving R.Resource.meaning made k c.number state false) self.old self.new }
    {
        self.close_sessions(c);
        self.slot.change(c, Change::Clear(state, false));
    }

    /// A module is in the slot, with this agreed size in bytes: connection 1 is Create due and 2 is Idle.
    /// Refused with 3 or 4.
    pub fn plug(&mut self, size: u16) -> Result<(), Refusal>
        ensures { ContextRefinesCall R.Resource.meaning (plug_call size) (plain_answer result) self.old self.new }
    {
        let size = AgreedSize::new(size).ok_or(Refusal::Size)?;
        if self.slot.agreed().is_some() {
            return Err(Refusal::Presence);
        }
        self.slot.plug(size);
        Ok(())
    }

    /// The module is gone: both connections are Idle, no session is left, and the resource is told once that the slot is gone.
    /// Refused with 4.
    pub fn pull(&mut self) -> Result<(), Refusal>
        ensures { ContextRefinesCall R.Resource.meaning pull_call (plain_answer result) self.old self.new }
    {
        if self.slot.agreed().is_none() {
            return Err(Refusal::Presence);
        }
        self.slot.pull();
        self.resource.gone(self.at);
        Ok(())
    }

    /// An Active connection is to be deleted: it becomes Delete due, and its sessions end. Refused with 2, 4, 5 or 6.
    pub fn end(&mut self, connection: u8) -> Result<(), Refusal>
        ensures { ContextRefinesCall R.Resource.meaning (end_call connection) (plain_answer result) self.old self.new }
    {
        let c = ConnectionId::new(connection).ok_or(Refusal::Connection)?;
        if self.slot.agreed().is_none() {
            return Err(Refusal::Presence);
        }
        if self.slot.connection(c).is_turn_out() {
            return Err(Refusal::Turn);
        }
        if self.slot.connection(c).state() != State::Active {
            return Err(Refusal::State);
        }
        self.leave(c, State::DeleteDue);
        Ok(())
    }

    /// No answer of the module came for the turn of the connection. Where it is out, it is out no more, and a connection that is
    /// Creating, Active or Deleting becomes Idle, and its sessions end. Where it is not out, nothing changes.
    pub fn expire(&mut self, c: ConnectionId)
        ensures { ContextRefinesCall R.Resource.meaning (expire_call c.number) (Ok done) self.old self.new }
    {
        if self.slot.connection(c).is_turn_out() {
            match self.slot.connection(c).state() {
                State::Creating | State::Active | State::Deleting => self.leave(c, State::Idle),
                _ => self.slot.change(c, Change::Unmark),
            }
        }
    }
}
