// Session units that a connection hears.
ghost use Rattle.std.specs.Prelude.{◌≡◌, [], IfErr};
ghost use Rattle.resource.specs.Identifiers.{first_match};
ghost use Rattle.wire.specs.declared.spdu.SessionReply.TheVariants.{OpenResponse};
ghost use Rattle.resource.specs.CallEffects.{OthersStay};
ghost use Rattle.protocol.specs.declared.state.OwedCommand.TheVariants.{SessionUnit};
ghost use Rattle.protocol.specs.SlotRecord.{with_owed};
ghost use Rattle.protocol.specs.SlotCalls.{open_if_ready, take_open_request, take_close_request, take_session_object, take_session_unit, hear};
ghost use Rattle.slot.specs.RecordViews.{slot_of, alter};
ghost use Rattle.slot.specs.ContextRefinement.{ContextRefinesStep, ContextRefinesAttempt};
ghost use Rattle.slot.specs.SessionObjects.{Settles};

use crate::connection::Change;
use crate::context::{SlotContext, session_on};
use crate::record::Record;
use protocol::{OwedCommand, Refusal, SessionRow};
use resource::identifier::is_older;
use resource::{ApduBuf, ConnectionId, Readiness, Resource};
use wire::{Apdu, ApduReader, SessionReply, SessionRequest, SpduReader};

// The statuses of an open_session_response that are told before the resource is asked; the others are those of `Readiness`.
#[derive(Clone, Copy)]
enum OpenStatus {
    NoResource = 0xF0,
    VersionLower = 0xF2,
}

// The statuses of a close_session_response.
#[derive(Clone, Copy)]
enum CloseStatus {
    Closed = 0x00,
    NotOpen = 0xF0,
}

// No session is opened, and the module is told why, by the status byte of an `OpenStatus` or of a `Readiness`.
fn refuse_open(slot: &mut Record, c: ConnectionId, status: u8, identifier: u32)
    ensures { slot_of slot.new ≡ alter c.number (with_owed (SessionUnit (OpenResponse status identifier 0))) (slot_of slot.old) }
{
    let reply = SessionReply::OpenResponse(status, identifier, 0);
    slot.change(c, Change::Owe(OwedCommand::SessionUnit(reply)));
}

// A session with a listed identifier is asked for.
fn open_listed<R: Resource>(context: &mut SlotContext<'_, R>, c: ConnectionId, listed: u32)
    ensures { ContextRefinesStep R.Resource.meaning (λ made k st. open_if_ready R.Resource.meaning made k c.number listed (R.Resource.meaning.ready made k listed st.share) st) context.old context.new }
{
    let status = context.resource.ready(context.at, listed);
    if status != Readiness::Ready {
        refuse_open(context.slot, c, status.into(), listed);
        return;
    }
    match context.slot.first_free() {
        None => refuse_open(context.slot, c, Readiness::Busy.into(), listed),
        Some(n) => {
            let row = SessionRow {
                connection: c.get(),
                identifier: listed,
                greeting_due: context.resource.greeting(listed).is_some(),
            };
            context.resource.opened(context.at, listed, n.get());
            context.slot.set_row(n, Some(row));
            let reply = SessionReply::OpenResponse(status.into(), listed, n.get() as u16);
            context
                .slot
                .change(c, Change::Owe(OwedCommand::SessionUnit(reply)));
        }
    }
}

// A session is asked for.
fn open<R: Resource>(context: &mut SlotContext<'_, R>, c: ConnectionId, asked: u32)
    ensures { ContextRefinesStep R.Resource.meaning (λ made k. take_open_request R.Resource.meaning made k c.number asked (first_match (R.Resource.meaning.listed made) asked)) context.old context.new }
{
    match context.resource.find(asked) {
        None => refuse_open(context.slot, c, OpenStatus::NoResource as u8, asked),
        Some(listed) if is_older(listed, asked) => refuse_open(
            context.slot,
            c,
            OpenStatus::VersionLower as u8,
            listed,
        ),
        Some(listed) => open_listed(context, c, listed),
    }
}

// A session is given back.
fn close<R: Resource>(context: &mut SlotContext<'_, R>, c: ConnectionId, number: u16)
    ensures { ContextRefinesStep R.Resource.meaning (λ made k. take_close_request R.Resource.meaning made k c.number number) context.old context.new }
{
    let status = if session_on(context.slot, c, number).is_some() {
        CloseStatus::Closed
    } else {
        CloseStatus::NotOpen
    };
    context.close_session(c, number);
    let reply = SessionReply::CloseResponse(status as u8, number);
    context
        .slot
        .change(c, Change::Owe(OwedCommand::SessionUnit(reply)));
}

// What is owed for an object that came for a session. Its bytes lie in the record, so record and resource are two parameters.
fn pass<R: Resource>(
    slot: &Record,
    resource: &mut R,
    at: u8,
    c: ConnectionId,
    number: u16,
    bytes: &[u8],
) -> Result<Option<OwedCommand<ApduBuf>>, Refusal>
    ensures after { Settles R.Resource.meaning at (take_session_object R.Resource.meaning (R.Resource.meaning.made resource.old) at c.number number bytes.now ((slot_of slot.now).rows number)) c.number result resource.old resource.new }
    ensures refused { IfErr result (λ _. R.Resource.meaning.share resource.new at ≡ R.Resource.meaning.share resource.old at) }
    ensures kept { OthersStay R.Resource.meaning at resource.old resource.new }
{
    let session = session_on(slot, c, number).ok_or(Refusal::NotOpen)?;
    let read = ApduReader::new(bytes).object()?;
    let apdu = Apdu {
        tag: read.tag,
        body: read.body.bytes,
    };
    let reply = resource.object(at, session.row.identifier, session.number.get(), apdu)?;
    Ok(reply.map(|piece| OwedCommand::SessionUnit(SessionReply::Data(number, piece))))
}

// All data of the connection, if any, are a session unit.
pub fn hear_session<R: Resource>(
    context: &mut SlotContext<'_, R>,
    c: ConnectionId,
    available: bool,
) -> Result<(), Refusal>
    ensures { ContextRefinesAttempt R.Resource.meaning (λ made k st. take_session_unit R.Resource.meaning made k c.number (st.slot.conn c.number).session_data (hear c.number available [] st)) result context.old context.new }
{
    if context.slot.connection(c).session_data().is_empty() {
        context.slot.change(c, Change::HearAndReadData(available));
        return Ok(());
    }
    match SpduReader::new(context.slot.connection(c).session_data()).request()? {
        SessionRequest::Open(identifier) => {
            context.slot.change(c, Change::HearAndReadData(available));
            open(context, c, identifier);
        }
        SessionRequest::Close(number) => {
            context.slot.change(c, Change::HearAndReadData(available));
            close(context, c, number);
        }
        SessionRequest::Data(number, body) => {
            let owed = pass(
                context.slot,
                context.resource,
                context.at,
                c,
                number,
                body.bytes,
            )?;
            context.slot.change(c, Change::HearAndReadData(available));
            if let Some(owed) = owed {
                context.slot.change(c, Change::Owe(owed));
            }
        }
    }
    Ok(())
}
