// Transport units (TPDUs).
ghost use Rattle.std.specs.Prelude.{◌≡◌};
ghost use Rattle.wire.specs.Writing.{write_object_front};
ghost use Rattle.wire.specs.TpduWriting.{command_tag, command_body};
ghost use Rattle.wire.specs.Reading.{start};
ghost use Rattle.wire.specs.TpduReading.{body_after_id, bare as bared, data_after_id, bare_object as bare_object_of, bare_command as bare_command_of, object as object_of, status as status_of, response as response_of, byte_after_id, command_object, command as command_of};
ghost use Rattle.wire.specs.CursorViews.{position_of};
ghost use Rattle.wire.specs.TpduViews.{transport_result, transport_position, transport_located, transport_object, transport_response, transport_command, map_command};

use crate::cursor::{Cursor, FieldLength, Part};
use crate::fault::{Fault, TransportFault};
use crate::writer::{WriteFault, write_object};

/// Tags of the objects of TPDUs.
pub const SB: u8 = 0x80;

pub const RCV: u8 = 0x81;

pub const CREATE_T_C: u8 = 0x82;

pub const C_T_C_REPLY: u8 = 0x83;

pub const DELETE_T_C: u8 = 0x84;

pub const D_T_C_REPLY: u8 = 0x85;

pub const REQUEST_T_C: u8 = 0x86;

pub const NEW_T_C: u8 = 0x87;

pub const T_C_ERROR: u8 = 0x88;

pub const T_DATA_LAST: u8 = 0xA0;

pub const T_DATA_MORE: u8 = 0xA1;

/// What a module's TPDU carries before its status: nothing, C_T_C_Reply, delete_T_C, D_T_C_Reply, request_T_C,
/// or the data of T_data_last or T_data_more. `B` is how data are held.
#[derive(Drop)]
pub enum ResponseObject<B> {
    Nothing,
    CreateReply,
    Delete,
    DeleteReply,
    RequestConnection,
    DataLast(B),
    DataMore(B),
}

/// A module's TPDU: at most one object, and its status.
#[derive(Drop)]
pub struct Response<B> {
    pub object: ResponseObject<B>,
    /// DA, the top bit of the status: the module has data to send.
    pub available: bool,
}

/// A host's TPDU: create_T_C, delete_T_C, D_T_C_Reply, T_RCV, T_data_last with its data, new_T_C with the new connection,
/// or T_C_Error with its error code. `B` is how data are held: as a part of what was read, or as bytes to write.
#[derive(Drop)]
pub enum Command<B> {
    Create,
    Delete,
    DeleteReply,
    Receive,
    Data(B),
    NewConnection(u8),
    Error(u8),
}

/// Reads one TPDU.
#[derive(Clone, Copy)]
pub struct TpduReader<'a> {
    cursor: Cursor<'a>,
}

// The object that this tag of a module names, where it has nothing but the connection.
fn bare_object<B>(tag: u8) -> Option<ResponseObject<B>>
    ensures { result ≡ bare_object_of tag }
{
    match tag {
        C_T_C_REPLY => Some(ResponseObject::CreateReply),
        DELETE_T_C => Some(ResponseObject::Delete),
        D_T_C_REPLY => Some(ResponseObject::DeleteReply),
        REQUEST_T_C => Some(ResponseObject::RequestConnection),
        _ => None,
    }
}

// The command that this tag of a host names, where it has nothing but the connection.
fn bare_command<B>(tag: u8) -> Option<Command<B>>
    ensures { result ≡ bare_command_of tag }
{
    match tag {
        CREATE_T_C => Some(Command::Create),
        DELETE_T_C => Some(Command::Delete),
        D_T_C_REPLY => Some(Command::DeleteReply),
        RCV => Some(Command::Receive),
        _ => None,
    }
}

impl<'a> TpduReader<'a> {
    /// A reader of the bytes of one TPDU.
    pub fn new(bytes: &'a [u8]) -> TpduReader<'a>
        ensures { position_of result.cursor ≡ start bytes.now }
    {
        TpduReader {
            cursor: Cursor::new(bytes),
        }
    }

    // The bytes of an object after the first, which is the connection.
    fn body_after_id(&mut self, id: u8, size: FieldLength) -> Result<Cursor<'a>, TransportFault>
        ensures { body_after_id id size (position_of self.old.cursor) ≡ (transport_position result, position_of self.new.cursor) }
    {
        let mut body = self.cursor.field(size)?;
        if body.byte()? != id {
            return Err(TransportFault(Fault::Content));
        }
        Ok(body)
    }

    // An object that has one byte beside the connection.
    fn byte_after_id(&mut self, id: u8) -> Result<u8, TransportFault>
        ensures { byte_after_id id (position_of self.old.cursor) ≡ (transport_result result, position_of self.new.cursor) }
    {
        Ok(self.body_after_id(id, FieldLength::Exactly(2))?.byte()?)
    }

    // An object that has nothing but the connection.
    fn bare(&mut self, id: u8) -> Result<(), TransportFault>
        ensures { bared id (position_of self.old.cursor) ≡ (transport_result result, position_of self.new.cursor) }
    {
        self.body_after_id(id, FieldLength::Exactly(1))?;
        Ok(())
    }

    fn data_after_id(&mut self, id: u8) -> Result<Part<'a>, TransportFault>
        ensures { data_after_id id (position_of self.old.cursor) ≡ (transport_located result, position_of self.new.cursor) }
    {
        Ok(self.body_after_id(id, FieldLength::AtLeast(1))?.rest())
    }

    fn object(&mut self, id: u8) -> Result<ResponseObject<Part<'a>>, TransportFault>
        ensures { object_of id (position_of self.old.cursor) ≡ (transport_object result, position_of self.new.cursor) }
    {
        let start = self.cursor;
        match self.cursor.byte()? {
            SB => {
                self.cursor = start;
                Ok(ResponseObject::Nothing)
            }
            T_DATA_LAST => Ok(ResponseObject::DataLast(self.data_after_id(id)?)),
            T_DATA_MORE => Ok(ResponseObject::DataMore(self.data_after_id(id)?)),
            tag => {
                let object = bare_object(tag).ok_or(TransportFault(Fault::Tag))?;
                self.bare(id)?;
                Ok(object)
            }
        }
    }

    // DA, the bit that says that the module has data to send.
    fn status(&mut self, id: u8) -> Result<bool, TransportFault>
        ensures { status_of id (position_of self.old.cursor) ≡ (transport_result result, position_of self.new.cursor) }
    {
        if self.cursor.byte()? != SB {
            return Err(TransportFault(Fault::Tag));
        }
        Ok(self.byte_after_id(id)? >= 0x80)
    }

    /// A module's TPDU on the connection `id`: at most one object, the status, and nothing after it.
    /// Data are a part of the bytes given. Refused with the first fault met: `Tag`, `Length`,
    /// or `Content` where the object or the status is of another connection.
    pub fn response(mut self, id: u8) -> Result<Response<Part<'a>>, TransportFault>
        ensures { transport_response result ≡ (response_of id (position_of self.entry.cursor)).0 }
    {
        let object = self.object(id)?;
        let available = self.status(id)?;
        self.cursor.finish()?;
        Ok(Response { object, available })
    }

    fn command_object(&mut self, id: u8) -> Result<Command<Part<'a>>, TransportFault>
        ensures { command_object id (position_of self.old.cursor) ≡ (transport_command result, position_of self.new.cursor) }
    {
        match self.cursor.byte()? {
            T_DATA_LAST => Ok(Command::Data(self.data_after_id(id)?)),
            NEW_T_C => Ok(Command::NewConnection(self.byte_after_id(id)?)),
            T_C_ERROR => Ok(Command::Error(self.byte_after_id(id)?)),
            tag => {
                let command = bare_command(tag).ok_or(TransportFault(Fault::Tag))?;
                self.bare(id)?;
                Ok(command)
            }
        }
    }

    /// A host's TPDU on the connection `id`: one object, and nothing after it. Data are a part of the bytes given.
    /// Refused with the first fault met: `Tag`, `Length`, or `Content` where the object is of another connection.
    pub fn command(mut self, id: u8) -> Result<Command<Part<'a>>, TransportFault>
        ensures { transport_command result ≡ (command_of id (position_of self.entry.cursor)).0 }
    {
        let command = self.command_object(id)?;
        self.cursor.finish()?;
        Ok(command)
    }
}

/// Writes a host's TPDU on the connection `id` to the front of `out`, and answers how many bytes it has; the bytes past them
/// keep their values. Refused with `Length` where data are over 65,534 bytes, then with `Room` where `out` is too short;
/// nothing is written then.
pub fn write_command(id: u8, command: Command<&[u8]>, out: &mut [u8]) -> Result<usize, WriteFault>
    ensures { write_object_front (command_tag command.entry) (command_body id (map_command (λ x. x.now) command.entry)) out.old ≡ (result, out.new) }
{
    match command {
        Command::Create => write_object(CREATE_T_C, &[id], &[], out),
        Command::Delete => write_object(DELETE_T_C, &[id], &[], out),
        Command::DeleteReply => write_object(D_T_C_REPLY, &[id], &[], out),
        Command::Receive => write_object(RCV, &[id], &[], out),
        Command::Data(bytes) => write_object(T_DATA_LAST, &[id], bytes, out),
        Command::NewConnection(c) => write_object(NEW_T_C, &[id, c], &[], out),
        Command::Error(e) => write_object(T_C_ERROR, &[id, e], &[], out),
    }
}
