// The host: four slots over one resource.
ghost use Rattle.std.specs.Prelude.{◌≡◌, ◌≤◌, length, Ok, Err, IfOk, IfErr};
ghost use Rattle.protocol.specs.SlotCalls.{SlotCall, plug as plug_call, pull as pull_call, end as end_call, next as next_call, feed as feed_call, expire as expire_call, done};
ghost use Rattle.protocol.specs.Runs.{at as at_slot, clock as clock_call, time_fits as time_fitting, decimal_byte_fits};
ghost use Rattle.slot.specs.Refinement.{plain_answer};
ghost use Rattle.slot.specs.WrittenCommands.{buffer_after};
ghost use Rattle.slot.specs.FeedAnswers.{feed_answer};
ghost use Rattle.std.specs.Option.{option_map};
ghost use Rattle.slot.specs.RecordViews.{slot_of};
ghost use Rattle.host.specs.HostRefinement.{HostRefinesCall, IsNewHost, record_at, fed_answer, HandsTurnBack, next_answer, HandedTurnNames, size_at, connection_at, session_at};

use crate::sound_slot::Slot;
use crate::turn::{ConnectionStatus, FeedOutcome, NextCommand, Turn};
use protocol::{Refusal, SessionRow};
use resource::{ConnectionId, Resource, SlotNumber};
use slot::Record;
use std::array;

/// A host: four slots, 0 to 3, over one resource. Each call takes every input; a refused one changes nothing.
/// For each call the refusals are told by number, in the order of checking.
#[derive(Drop)]
pub struct Host<R> {
    resource: R,
    slots: [Slot; 4],
}

impl<R: Resource> Host<R> {
    /// A host over a resource, with all slots absent. All memory that it will ever need is in it.
    pub fn new(resource: R) -> Host<R>
        ensures { IsNewHost R.Resource.meaning resource result }
    {
        Host {
            resource,
            slots: array::from_fn(|_| Slot::new()),
        }
    }

    /// Tells the resource the time, for every slot: a day number of two bytes, which may be any, then hour, minute and
    /// second, each a byte of two decimal digits, the tens in its high half. Refused with 8 where these are no time.
    pub fn clock(&mut self, time: [u8; 5]) -> Result<(), Refusal>
        ensures { HostRefinesCall R.Resource.meaning (clock_call time) (plain_answer result) self.old self.new }
    {
        if !time_fits(time) {
            return Err(Refusal::Clock);
        }
        self.resource.clock(time);
        Ok(())
    }

    /// A module is in a slot, with this agreed size in bytes: connection 1 is Create due and 2 is Idle. A turn that is out
    /// stays out. Refused with 1, 3 or 4.
    pub fn plug(&mut self, slot: u8, size: u16) -> Result<(), Refusal>
        ensures { HostRefinesCall R.Resource.meaning (at_slot slot (plug_call size)) (plain_answer result) self.old self.new }
    {
        let at = self.slot_number(slot)?;
        self.slots[at.get() as usize].plug(&mut self.resource, at, size)
    }

    /// The module of a slot is gone: both connections are Idle and no session is left. The resource is told once that the
    /// slot is gone. A turn that is out stays out. Refused with 1 or 4.
    pub fn pull(&mut self, slot: u8) -> Result<(), Refusal>
        ensures { HostRefinesCall R.Resource.meaning (at_slot slot pull_call) (plain_answer result) self.old self.new }
    {
        let at = self.slot_number(slot)?;
        self.slots[at.get() as usize].pull(&mut self.resource, at)
    }

    /// An Active connection is to be deleted: it becomes Delete due, loses what it keeps and owes, and its sessions end.
    /// Refused with 1, 2, 4, 5 or 6.
    pub fn end(&mut self, slot: u8, connection: u8) -> Result<(), Refusal>
        ensures { HostRefinesCall R.Resource.meaning (at_slot slot (end_call connection)) (plain_answer result) self.old self.new }
    {
        let at = self.slot_number(slot)?;
        self.slots[at.get() as usize].end(&mut self.resource, at, connection)
    }

    /// Writes the command that is due on a connection to the front of `out`, as LPDUs of which all but the last have the
    /// agreed size, and hands out a turn unless it wrote 85. 152 bytes are room for every command. Refused with 1, 2, 4, 5, 6
    /// or 7. Bytes of `out` past those written keep their values, and all do where it refuses.
    pub fn next(&mut self, slot: u8, connection: u8, out: &mut [u8]) -> Result<NextCommand, Refusal>
        ensures called { HostRefinesCall R.Resource.meaning (at_slot slot (next_call connection (length out.old))) (next_answer result out.new) self.old self.new }
        ensures bytes { out.new ≡ buffer_after (next_answer result out.new) out.old }
        ensures inside { IfOk result (λ next. next.length ≤ length out.new) }
        ensures whose { HandedTurnNames slot connection result }
    {
        let at = self.slot_number(slot)?;
        let sent = self.slots[at.get() as usize].next(&self.resource, at, connection, out)?;
        Ok(NextCommand {
            length: sent.length,
            turn: hand_out(at, sent.turn),
        })
    }

    /// Takes an LPDU of the module for a turn. The turn comes back where more of the TPDU follows, and where the LPDU is
    /// refused; the last LPDU of a TPDU that is taken spends it. Refused with 4, 5, 6 or 9 to 17.
    pub fn feed(&mut self, turn: Turn, lpdu: &[u8]) -> FeedOutcome
        ensures called { HostRefinesCall R.Resource.meaning (at_slot turn.slot.number (feed_call turn.connection.number lpdu.now)) (fed_answer result) self.old self.new }
        ensures back { HandsTurnBack turn result }
    {
        match self.feed_at(turn.slot, turn.connection, lpdu) {
            Ok(true) => FeedOutcome::More(turn),
            Ok(false) => {
                turn.spend();
                FeedOutcome::Done
            }
            Err(e) => FeedOutcome::Refused(turn, e),
        }
    }

    /// No answer of the module came for a turn; always served. Where the connection's turn is out, it is out no more, and a
    /// connection that is Creating, Active or Deleting becomes Idle, and its sessions end.
    pub fn expire(&mut self, turn: Turn)
        ensures { HostRefinesCall R.Resource.meaning (at_slot turn.slot.number (expire_call turn.connection.number)) (Ok done) self.old self.new }
    {
        self.slots[turn.slot.get() as usize].expire(&mut self.resource, turn.slot, turn.connection);
        turn.spend();
    }

    /// The agreed size in bytes of a slot that has a module; none for an absent slot and for one above 3.
    pub fn size(&self, slot: u8) -> Option<u16>
        ensures { result ≡ size_at self.now slot }
    {
        let slot = SlotNumber::new(slot)?;
        self.contents(slot).agreed().map(|size| size.get())
    }

    /// The state of a connection, and whether its turn is out; none for a slot above 3 or a connection other than 1 and 2.
    pub fn connection(&self, slot: u8, connection: u8) -> Option<ConnectionStatus>
        ensures { result ≡ connection_at self.now slot connection }
    {
        let slot = SlotNumber::new(slot)?;
        let connection = ConnectionId::new(connection)?;
        let status = self.contents(slot).connection(connection);
        Some(ConnectionStatus {
            state: status.state(),
            out: status.is_turn_out(),
        })
    }

    /// The session with this number, if it is open; none for a slot above 3 or a number outside 1 to 16.
    pub fn session(&self, slot: u8, number: u16) -> Option<SessionRow>
        ensures { result ≡ session_at self.now slot number }
    {
        let slot = SlotNumber::new(slot)?;
        self.contents(slot)
            .session(number)
            .map(|session| session.row)
    }

    fn contents(&self, slot: SlotNumber) -> &Record
        ensures { slot_of result.now ≡ record_at self.now slot.number }
    {
        self.slots[slot.get() as usize].contents()
    }

    // The slot that a call names; with none the call is refused.
    fn slot_number(&self, slot: u8) -> Result<SlotNumber, Refusal>
        ensures named { IfOk result (λ at. at.number ≡ slot) }
        ensures refused { IfErr result (λ e. (a : SlotCall) → HostRefinesCall R.Resource.meaning (at_slot slot a) (Err e) self.now self.now) }
    {
        SlotNumber::new(slot).ok_or(Refusal::Slot)
    }

    // The call on the slot: true where the turn comes back for further fragments.
    fn feed_at(
        &mut self,
        slot: SlotNumber,
        connection: ConnectionId,
        lpdu: &[u8],
    ) -> Result<bool, Refusal>
        ensures { HostRefinesCall R.Resource.meaning (at_slot slot.number (feed_call connection.number lpdu.now)) (feed_answer result) self.old self.new }
    {
        self.slots[slot.get() as usize].feed(&mut self.resource, slot, connection, lpdu)
    }
}

// Only here is a turn made.
fn hand_out(slot: SlotNumber, connection: Option<ConnectionId>) -> Option<Turn>
    ensures { result ≡ option_map (λ c. record { slot = slot; connection = c }) connection }
{
    connection.map(|connection| Turn { slot, connection })
}

// A byte of two decimal digits, of a number that is at most this.
fn digits_fit(most: u8, b: u8) -> bool
    ensures { result ≡ decimal_byte_fits most b }
{
    b / 16 <= 9 && b % 16 <= 9 && b / 16 * 10 + b % 16 <= most
}

fn time_fits(time: [u8; 5]) -> bool
    ensures { result ≡ time_fitting time }
{
    let [_, _, hour, minute, second] = time;
    digits_fit(23, hour) && digits_fit(59, minute) && digits_fit(59, second)
}
