// What a connection hears: fragments, transport units and their data.
ghost use Rattle.std.specs.Prelude.{◌≡◌, length, Ok};
ghost use Rattle.wire.specs.declared.tpdu.ResponseObject.TheVariants.{DataMore, DataLast};
ghost use Rattle.wire.specs.TpduReading.{read_response};
ghost use Rattle.wire.specs.TpduViews.{transport_response};
ghost use Rattle.protocol.specs.declared.state.State.TheVariants.{Active};
ghost use Rattle.protocol.specs.SlotCalls.{take_object, take_transport_unit, feed as feed_call};
ghost use Rattle.slot.specs.RecordViews.{slot_of};
ghost use Rattle.slot.specs.ContextRefinement.{ContextRefinesAttempt, ContextRefinesServing, ContextRefinesCall};
ghost use Rattle.slot.specs.FeedAnswers.{feed_answer, DataStandAtOffset, part_with_offset, join_outcome, AddsData};

use crate::connection::Change;
use crate::context::SlotContext;
use crate::record::Record;
use crate::session::hear_session;
use protocol::{OwedCommand, Refusal, State};
use resource::{ConnectionId, Resource};
use wire::{LpduReader, Part, Response, ResponseObject, TpduReader, TransportFault};

// Reads a module's TPDU. Its data are the bytes at their offset.
fn read(bytes: &[u8], c: ConnectionId) -> Result<Response<Part<'_>>, TransportFault>
    ensures said { transport_response result ≡ read_response c.number bytes.now }
    ensures lies { DataStandAtOffset bytes.now result }
{
    TpduReader::new(bytes).response(c.get())
}

// Where in a connection's fragments the data of a unit lie.
#[derive(Clone, Copy)]
struct Span {
    start: usize,
    length: usize,
}

impl From<Part<'_>> for Span {
    ghost from_gives = { λ p s. s ≡ record { start = p.offset; length = length p.bytes.now } };

    fn from(part: Part<'_>) -> Span {
        Span {
            start: part.offset,
            length: part.bytes.len(),
        }
    }
}

// Data join those before them, if there is room.
fn add(slot: &mut Record, c: ConnectionId, span: Span) -> Result<(), Refusal>
    ensures { AddsData c.number span.start span.length result (slot_of slot.old) (slot_of slot.new) }
{
    if slot.push_data(c, span.start, span.length) {
        Ok(())
    } else {
        Err(Refusal::Data)
    }
}

// Data are added, and more will follow.
fn add_more<R: Resource>(
    context: &mut SlotContext<'_, R>,
    c: ConnectionId,
    available: bool,
    span: Span,
) -> Result<(), Refusal>
    ensures { ContextRefinesAttempt R.Resource.meaning (λ made k st. take_object R.Resource.meaning made k c.number Active (DataMore (part_with_offset c.number span.start span.length st)) available st) result context.old context.new }
{
    add(context.slot, c, span)?;
    context.slot.change(c, Change::Hear(available));
    Ok(())
}

// Data are added, and all of them are a session unit.
fn add_last<R: Resource>(
    context: &mut SlotContext<'_, R>,
    c: ConnectionId,
    available: bool,
    span: Span,
) -> Result<(), Refusal>
    ensures { ContextRefinesAttempt R.Resource.meaning (λ made k st. take_object R.Resource.meaning made k c.number Active (DataLast (part_with_offset c.number span.start span.length st)) available st) result context.old context.new }
{
    let held = context.slot.connection(c).session_data().len();
    add(context.slot, c, span)?;
    // What was added before is cut off again: a refused feed changes nothing.
    if let Err(e) = hear_session(context, c, available) {
        context.slot.change(c, Change::CutData(held));
        return Err(e);
    }
    Ok(())
}

// The fragments are a transport unit: it is taken by the connection's state and the unit's object.
fn take_unit<R: Resource>(context: &mut SlotContext<'_, R>, c: ConnectionId) -> Result<(), Refusal>
    ensures { ContextRefinesAttempt R.Resource.meaning (λ made k. take_transport_unit R.Resource.meaning made k c.number) result context.old context.new }
{
    let response = read(context.slot.connection(c).fragments(), c)?;
    let available = response.available;
    match (context.slot.connection(c).state(), response.object) {
        (State::Creating, ResponseObject::CreateReply) | (State::Active, ResponseObject::Nothing) =>
            {
                context.slot.change(c, Change::Hear(available));
                Ok(())
            }
        (State::Active, ResponseObject::Delete) => {
            context.leave(c, State::ReplyDue);
            Ok(())
        }
        (State::Deleting, ResponseObject::DeleteReply) => {
            context.leave(c, State::Idle);
            Ok(())
        }
        (State::Active, ResponseObject::RequestConnection)
            if context.slot.connection(c.other()).state() == State::Idle => {
            context.slot.change(c, Change::Hear(available));
            context
                .slot
                .change(c, Change::Owe(OwedCommand::NewConnection));
            Ok(())
        }
        (State::Active, ResponseObject::RequestConnection) => {
            context.slot.change(c, Change::Hear(available));
            context
                .slot
                .change(c, Change::Owe(OwedCommand::NoConnection));
            Ok(())
        }
        (State::Active, ResponseObject::DataMore(data)) => {
            let span = Span::from(data);
            add_more(context, c, available, span)
        }
        (State::Active, ResponseObject::DataLast(data)) => {
            let span = Span::from(data);
            add_last(context, c, available, span)
        }
        _ => Err(Refusal::Object),
    }
}

// One fragment more: true where the turn comes back for further ones.
fn join<R: Resource>(
    context: &mut SlotContext<'_, R>,
    c: ConnectionId,
    more: bool,
    bytes: &[u8],
) -> Result<bool, Refusal>
    ensures { ContextRefinesServing R.Resource.meaning (λ made k. join_outcome R.Resource.meaning made k c.number more bytes.now) (feed_answer result) context.old context.new }
{
    let held = context.slot.connection(c).fragments().len();
    if !context.slot.push_fragment(c, bytes) {
        return Err(Refusal::Fragments);
    }
    if more {
        return Ok(true);
    }
    // What was added before is cut off again: a refused feed changes nothing.
    if let Err(e) = take_unit(context, c) {
        context.slot.change(c, Change::Cut(held));
        return Err(e);
    }
    Ok(false)
}

/// Takes a module's LPDU on a connection: true where the turn comes back for further fragments, false where it is spent.
/// Refused with 4, 5, 6 or 9 to 17, the first that applies, and then nothing changes.
pub fn feed<R: Resource>(
    context: &mut SlotContext<'_, R>,
    c: ConnectionId,
    lpdu: &[u8],
) -> Result<bool, Refusal>
    ensures { ContextRefinesCall R.Resource.meaning (feed_call c.number lpdu.now) (feed_answer result) context.old context.new }
{
    let size = context.slot.agreed().ok_or(Refusal::Presence)?;
    if !context.slot.connection(c).is_turn_out() {
        return Err(Refusal::Turn);
    }
    if !matches!(
        context.slot.connection(c).state(),
        State::Creating | State::Active | State::Deleting
    ) {
        return Err(Refusal::State);
    }
    let fragment = LpduReader::new(lpdu).fragment(size.get(), c.get())?;
    join(context, c, fragment.more, fragment.bytes.bytes)
}
