// What a connection sends: the command that is due, written as link units.
ghost use Rattle.std.specs.Prelude.{◌≡◌, ℕ, ◌≤◌, length, is_some, Some, IfOk};
ghost use Rattle.wire.specs.LpduWriting.{lpdus_bytes};
ghost use Rattle.wire.specs.TpduWriting.{command_bytes};
ghost use Rattle.wire.specs.TpduViews.{map_command};
ghost use Rattle.wire.specs.SpduWriting.{reply_bytes};
ghost use Rattle.wire.specs.SpduViews.{map_reply};
ghost use Rattle.resource.specs.NumberTables.{session_numbers, first};
ghost use Rattle.resource.specs.InterfaceViews.{buffer_bytes};
ghost use Rattle.protocol.specs.SlotRecord.{has_greeting_due};
ghost use Rattle.protocol.specs.SlotCalls.{poll as poll_due, greet as greeting_or_poll, active_due, due_command, write_in, next as next_call};
ghost use Rattle.slot.specs.RecordViews.{slot_of};
ghost use Rattle.slot.specs.ConnectionViews.{owed_of};
ghost use Rattle.slot.specs.Refinement.{state_at, RefinesServing, RefinesCall};
ghost use Rattle.slot.specs.declared.transmit.Effect.TheVariants.{Enter};
ghost use Rattle.slot.specs.DueCommands.{sender_state, said, hands_out, left_by, due_of, due_or, lpdus};
ghost use Rattle.slot.specs.WrittenCommands.{put_if_room, written_answer, buffer_after, ConnectionIs, HandedTurnIs};

use crate::agreed_size::AgreedSize;
use crate::connection::Change;
use crate::record::Record;
use protocol::{OwedCommand, Refusal, SessionRow, State};
use resource::{ApduBuf, ConnectionId, Resource, SessionNumber};
use wire::{Command, SessionReply, write_command, write_lpdus, write_reply};

// A command that is due, with what is said in its data, and what becomes of the slot when it is written.
#[derive(Drop)]
struct DueCommand {
    command: Command<Option<SessionReply<ApduBuf>>>,
    effect: Effect,
}

// What a written command makes of its slot.
#[derive(Clone, Copy)]
enum Effect {
    // The connection is in this state, and its turn is out.
    Enter(State),
    // The connection is Idle, and no turn is handed out.
    Leave,
    // The turn is out, and the other connection is Create due.
    Announce,
    // The turn is out, and the greeting of this session is due no more.
    Greet(SessionNumber, SessionRow),
}

/// A command that was written.
#[derive(Clone, Copy)]
pub struct WrittenCommand {
    /// How many bytes its LPDUs have, at the front of the buffer.
    pub length: usize,
    /// The connection whose turn is handed out: none where 85 was written.
    pub turn: Option<ConnectionId>,
}

// The most bytes of a command's session unit, and of a command.
const SPDU: usize = 128;

const TPDU: usize = 132;

// The error code of a T_C_Error: there is no connection to be had.
const NO_CONNECTION: u8 = 1;

// Writes a command as link units of a connection, all but the last of the agreed size, if there is room.
fn write_units(
    command: Command<Option<SessionReply<ApduBuf>>>,
    c: ConnectionId,
    size: AgreedSize,
    out: &mut [u8],
) -> Option<usize>
    ensures { put_if_room (lpdus c.number size.bytes command) out.old ≡ (result, out.new) }
{
    let id = c.get();
    let mut spdu = [0; SPDU];
    let mut tpdu = [0; TPDU];
    let n = write_command(id, with_data(command, &mut spdu), &mut tpdu).unwrap_or(0);
    write_lpdus(id, size.get(), &tpdu[..n], out).ok()
}

// The command with its data, which are laid into a buffer.
fn with_data<'a>(
    command: Command<Option<SessionReply<ApduBuf>>>,
    spdu: &'a mut [u8; SPDU],
) -> Command<&'a [u8]>
    ensures value { map_command (λ x. x.now) result ≡ map_command said command }
    ensures short { (c : ℕ) → length (command_bytes c (map_command said command)) ≤ 132 }
{
    match command {
        Command::Create => Command::Create,
        Command::Delete => Command::Delete,
        Command::DeleteReply => Command::DeleteReply,
        Command::Receive => Command::Receive,
        Command::Data(None) => Command::Data(&[]),
        Command::Data(Some(reply)) => {
            let n = write_reply(in_bytes(&reply), spdu).unwrap_or(0);
            Command::Data(&spdu[..n])
        }
        Command::NewConnection(other) => Command::NewConnection(other),
        Command::Error(code) => Command::Error(code),
    }
}

// What is said in a session, with the bytes of its object.
fn in_bytes(reply: &SessionReply<ApduBuf>) -> SessionReply<&[u8]>
    ensures value { map_reply (λ x. x.now) result ≡ map_reply buffer_bytes reply.now }
    ensures short { length (reply_bytes (map_reply buffer_bytes reply.now)) ≤ 128 }
{
    match reply {
        SessionReply::OpenResponse(status, identifier, number) => {
            SessionReply::OpenResponse(*status, *identifier, *number)
        }
        SessionReply::CloseResponse(status, number) => SessionReply::CloseResponse(
            *status, *number,
        ),
        SessionReply::Data(number, piece) => SessionReply::Data(*number, piece.bytes()),
    }
}

impl DueCommand {
    // A command that leaves the connection in this state.
    fn enter(state: State, command: Command<Option<SessionReply<ApduBuf>>>) -> DueCommand
        ensures { result ≡ record { command = command; effect = Enter state } }
    {
        DueCommand {
            command,
            effect: Effect::Enter(state),
        }
    }
}

impl Effect {
    // The connection whose turn is handed out.
    fn turn(self, c: ConnectionId) -> Option<ConnectionId>
        ensures handed { is_some result ≡ hands_out self }
        ensures whose { ConnectionIs c.number result }
    {
        match self {
            Effect::Leave => None,
            _ => Some(c),
        }
    }
}

// A connection that sends: the record and the number of its slot, and the resource, which is only read.
#[derive(Drop)]
struct Sender<'a, R> {
    record: &'a mut Record,
    resource: &'a R,
    at: u8,
    c: ConnectionId,
}

impl<'a, R: Resource> Sender<'a, R> {
    // 81 where the module has data to send, or else an empty A0.
    fn poll(&self) -> DueCommand
        ensures { due_of self.now.c.number result (sender_state R.Resource.meaning self.now) ≡ poll_due R.Resource.meaning (R.Resource.meaning.made self.now.resource.now) self.now.at self.now.c.number (sender_state R.Resource.meaning self.now) }
    {
        let command = if self.record.connection(self.c).is_available() {
            Command::Receive
        } else {
            Command::Data(None)
        };
        DueCommand::enter(State::Active, command)
    }

    // The due greeting of the lowest number, or else a poll.
    fn greet(&self) -> DueCommand
        ensures { due_of self.now.c.number result (sender_state R.Resource.meaning self.now) ≡ greeting_or_poll R.Resource.meaning (R.Resource.meaning.made self.now.resource.now) self.now.at self.now.c.number (first (λ n. has_greeting_due self.now.c.number ((slot_of self.now.record.now).rows n)) session_numbers) (sender_state R.Resource.meaning self.now) }
    {
        if let Some(n) = self.record.first_greeting(self.c)
            && let Some(row) = self.record.row(n)
            && let Some(piece) = self.resource.greeting(row.identifier)
        {
            DueCommand {
                command: Command::Data(Some(SessionReply::Data(n.get() as u16, piece))),
                effect: Effect::Greet(n, row),
            }
        } else {
            self.poll()
        }
    }

    // What is owed.
    fn owed(&self, owed: OwedCommand<ApduBuf>) -> DueCommand
        ensures { due_of self.now.c.number result (sender_state R.Resource.meaning self.now) ≡ active_due R.Resource.meaning (R.Resource.meaning.made self.now.resource.now) self.now.at self.now.c.number (Some (owed_of owed)) (sender_state R.Resource.meaning self.now) }
    {
        match owed {
            OwedCommand::NewConnection => DueCommand {
                command: Command::NewConnection(self.c.other().get()),
                effect: Effect::Announce,
            },
            OwedCommand::NoConnection => DueCommand::enter(
                State::Active,
                Command::Error(NO_CONNECTION),
            ),
            OwedCommand::SessionUnit(reply) => DueCommand::enter(
                State::Active,
                Command::Data(Some(reply)),
            ),
        }
    }

    // The command that is due, by the connection's state.
    fn choose(&self) -> Result<DueCommand, Refusal>
        ensures { due_or self.now.c.number result (sender_state R.Resource.meaning self.now) ≡ due_command R.Resource.meaning (R.Resource.meaning.made self.now.resource.now) self.now.at self.now.c.number ((slot_of self.now.record.now).conn self.now.c.number).state (sender_state R.Resource.meaning self.now) }
    {
        match self.record.connection(self.c).state() {
            State::CreateDue => Ok(DueCommand::enter(State::Creating, Command::Create)),
            State::DeleteDue => Ok(DueCommand::enter(State::Deleting, Command::Delete)),
            State::ReplyDue => Ok(DueCommand {
                command: Command::DeleteReply,
                effect: Effect::Leave,
            }),
            State::Active => Ok(match self.record.connection(self.c).owed() {
                Some(owed) => self.owed(owed),
                None => self.greet(),
            }),
            _ => Err(Refusal::State),
        }
    }

    // What is written is owed or due no more.
    fn mark_sent(&mut self, effect: Effect)
        ensures same_reference { self.new.record.ghost_name ≡ self.old.record.ghost_name }
        ensures left { state_at R.Resource.meaning self.old.at self.new.record.now self.old.resource.now ≡ left_by self.old.c.number effect (sender_state R.Resource.meaning self.old) }
    {
        let c = self.c;
        match effect {
            Effect::Enter(state) => self.record.change(c, Change::Send(state)),
            Effect::Leave => self.record.change(c, Change::Clear(State::Idle, false)),
            Effect::Announce => {
                self.record.change(c, Change::Send(State::Active));
                let mark = self.record.connection(c.other()).is_turn_out();
                self.record
                    .change(c.other(), Change::Clear(State::CreateDue, mark));
            }
            Effect::Greet(n, row) => {
                let greeted = SessionRow {
                    greeting_due: false,
                    ..row
                };
                self.record.set_row(n, Some(greeted));
                self.record.change(c, Change::Send(State::Active));
            }
        }
    }

    // The command that is due is written, if there is room, and spent.
    fn write(
        &mut self,
        size: AgreedSize,
        due: DueCommand,
        out: &mut [u8],
    ) -> Result<WrittenCommand, Refusal>
        ensures same_reference { self.new.record.ghost_name ≡ self.old.record.ghost_name }
        ensures did { RefinesServing R.Resource.meaning self.old.at (λ made k st. write_in R.Resource.meaning made k (length out.old) (lpdus self.old.c.number size.bytes due.command) (due_of self.old.c.number due st)) (written_answer result out.new) self.old.record.now self.old.resource.now self.new.record.now self.old.resource.now }
        ensures bytes { out.new ≡ buffer_after (written_answer result out.new) out.old }
        ensures inside { IfOk result (λ sent. sent.length ≤ length out.new) }
        ensures whose { HandedTurnIs self.old.c.number result }
    {
        let DueCommand { command, effect } = due;
        let c = self.c;
        let length = write_units(command, c, size, out).ok_or(Refusal::Room)?;
        self.mark_sent(effect);
        Ok(WrittenCommand {
            length,
            turn: effect.turn(c),
        })
    }

    // The command that is due is written, and spent.
    fn next(&mut self, out: &mut [u8]) -> Result<WrittenCommand, Refusal>
        ensures same_reference { self.new.record.ghost_name ≡ self.old.record.ghost_name }
        ensures did { RefinesCall R.Resource.meaning self.old.at (next_call self.old.c.number (length out.old)) (written_answer result out.new) self.old.record.now self.old.resource.now self.new.record.now self.old.resource.now }
        ensures bytes { out.new ≡ buffer_after (written_answer result out.new) out.old }
        ensures inside { IfOk result (λ sent. sent.length ≤ length out.new) }
        ensures whose { HandedTurnIs self.old.c.number result }
    {
        let size = self.record.agreed().ok_or(Refusal::Presence)?;
        if self.record.connection(self.c).is_turn_out() {
            return Err(Refusal::Turn);
        }
        let due = self.choose()?;
        self.write(size, due, out)
    }
}

/// Writes the command that is due on a connection to the front of `out`, as LPDUs of which all but the last have the
/// agreed size; it is owed or due no more. `at` is the slot's number; the resource is only read. Refused with 2, 4, 5, 6
/// or 7, and then nothing changes. Bytes of `out` past those written keep their values.
pub fn next<R: Resource>(
    slot: &mut Record,
    resource: &R,
    at: u8,
    connection: u8,
    out: &mut [u8],
) -> Result<WrittenCommand, Refusal>
    ensures did { RefinesCall R.Resource.meaning at (next_call connection (length out.old)) (written_answer result out.new) slot.old resource.now slot.new resource.now }
    ensures bytes { out.new ≡ buffer_after (written_answer result out.new) out.old }
    ensures inside { IfOk result (λ sent. sent.length ≤ length out.new) }
    ensures whose { HandedTurnIs connection result }
{
    let c = ConnectionId::new(connection).ok_or(Refusal::Connection)?;
    Sender {
        record: slot,
        resource,
        at,
        c,
    }
    .next(out)
}
