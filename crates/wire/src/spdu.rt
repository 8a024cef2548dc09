// Session units (SPDUs).
ghost use Rattle.std.specs.Prelude.{◌≡◌};
ghost use Rattle.wire.specs.Writing.{write_front};
ghost use Rattle.wire.specs.SpduWriting.{reply_bytes};
ghost use Rattle.wire.specs.Reading.{start};
ghost use Rattle.wire.specs.SpduReading.{number_field, request as request_of, open_response, close_response, reply as reply_of};
ghost use Rattle.wire.specs.CursorViews.{position_of};
ghost use Rattle.wire.specs.SpduViews.{session_result, session_request, session_reply, map_reply};

use crate::cursor::{Cursor, FieldLength, Part};
use crate::fault::{Fault, SessionFault};
use crate::writer::{WriteFault, write_pieces};

/// Tags of SPDUs.
pub const SESSION_NUMBER: u8 = 0x90;

pub const OPEN_SESSION_REQUEST: u8 = 0x91;

pub const OPEN_SESSION_RESPONSE: u8 = 0x92;

pub const CLOSE_SESSION_REQUEST: u8 = 0x95;

pub const CLOSE_SESSION_RESPONSE: u8 = 0x96;

/// A module's SPDU: it asks for a session by a resource's identifier, gives a session back by its number,
/// or carries a body in the session of this number. `B` is how the body is held.
#[derive(Drop)]
pub enum SessionRequest<B> {
    Open(u32),
    Close(u16),
    Data(u16, B),
}

/// A host's SPDU: status, identifier and number of a session that was asked for; status and number of one that was given back;
/// or a session's number and a body. A status is any byte. `B` is how the body is held.
#[derive(Clone, Copy)]
pub enum SessionReply<B> {
    OpenResponse(u8, u32, u16),
    CloseResponse(u8, u16),
    Data(u16, B),
}

/// Reads one SPDU.
#[derive(Clone, Copy)]
pub struct SpduReader<'a> {
    cursor: Cursor<'a>,
}

impl<'a> SpduReader<'a> {
    /// A reader of the bytes of one SPDU.
    pub fn new(bytes: &'a [u8]) -> SpduReader<'a>
        ensures { position_of result.cursor ≡ start bytes.now }
    {
        SpduReader {
            cursor: Cursor::new(bytes),
        }
    }

    // A session's number, alone in its field.
    fn number_field(&mut self) -> Result<u16, SessionFault>
        ensures { number_field (position_of self.old.cursor) ≡ (session_result result, position_of self.new.cursor) }
    {
        Ok(self.cursor.field(FieldLength::Exactly(2))?.two_bytes()?)
    }

    /// A module's SPDU: `91 04` identifier, `95 02` number, or `90 02` number and all that follows, which is the body.
    /// The body is a part of the bytes given. Refused with the first fault met, `Tag` or `Length`.
    pub fn request(mut self) -> Result<SessionRequest<Part<'a>>, SessionFault>
        ensures { session_request result ≡ (request_of (position_of self.entry.cursor)).0 }
    {
        let request = match self.cursor.byte()? {
            OPEN_SESSION_REQUEST => SessionRequest::Open(
                self.cursor.field(FieldLength::Exactly(4))?.four_bytes()?,
            ),
            CLOSE_SESSION_REQUEST => SessionRequest::Close(self.number_field()?),
            SESSION_NUMBER => return Ok(SessionRequest::Data(
                self.number_field()?,
                self.cursor.rest(),
            )),
            _ => return Err(SessionFault(Fault::Tag)),
        };
        self.cursor.finish()?;
        Ok(request)
    }

    fn open_response(&mut self) -> Result<SessionReply<Part<'a>>, SessionFault>
        ensures { open_response (position_of self.old.cursor) ≡ (session_reply result, position_of self.new.cursor) }
    {
        let mut body = self.cursor.field(FieldLength::Exactly(7))?;
        Ok(SessionReply::OpenResponse(body.byte()?, body.four_bytes()?, body.two_bytes()?))
    }

    fn close_response(&mut self) -> Result<SessionReply<Part<'a>>, SessionFault>
        ensures { close_response (position_of self.old.cursor) ≡ (session_reply result, position_of self.new.cursor) }
    {
        let mut body = self.cursor.field(FieldLength::Exactly(3))?;
        Ok(SessionReply::CloseResponse(body.byte()?, body.two_bytes()?))
    }

    /// A host's SPDU: `92 07` status identifier number, `96 03` status number, or `90 02` number and all that follows,
    /// which is the body, a part of the bytes given. Refused with the first fault met, `Tag` or `Length`.
    pub fn reply(mut self) -> Result<SessionReply<Part<'a>>, SessionFault>
        ensures { session_reply result ≡ (reply_of (position_of self.entry.cursor)).0 }
    {
        let reply = match self.cursor.byte()? {
            OPEN_SESSION_RESPONSE => self.open_response()?,
            CLOSE_SESSION_RESPONSE => self.close_response()?,
            SESSION_NUMBER => return Ok(SessionReply::Data(
                self.number_field()?,
                self.cursor.rest(),
            )),
            _ => return Err(SessionFault(Fault::Tag)),
        };
        self.cursor.finish()?;
        Ok(reply)
    }
}

/// Writes a host's SPDU to the front of `out`, and answers how many bytes it has; the bytes past them keep their values.
/// Refused with `Room` where `out` is too short; nothing is written then.
pub fn write_reply(reply: SessionReply<&[u8]>, out: &mut [u8]) -> Result<usize, WriteFault>
    ensures { write_front (reply_bytes (map_reply (λ x. x.now) reply.entry)) out.old ≡ (result, out.new) }
{
    match reply {
        SessionReply::OpenResponse(status, identifier, number) => {
            let head = [OPEN_SESSION_RESPONSE, 7, status];
            write_pieces(
                &[&head, &identifier.to_be_bytes(), &number.to_be_bytes()],
                out,
            )
        }
        SessionReply::CloseResponse(status, number) => {
            let head = [CLOSE_SESSION_RESPONSE, 3, status];
            write_pieces(&[&head, &number.to_be_bytes()], out)
        }
        SessionReply::Data(number, bytes) => {
            let head = [SESSION_NUMBER, 2];
            write_pieces(&[&head, &number.to_be_bytes(), bytes], out)
        }
    }
}
