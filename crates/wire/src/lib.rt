// Units on the wire: readers and writers of length fields, LPDUs, TPDUs, SPDUs and APDUs, and the laws over all of them.
#![tactic(auto)]

pub mod apdu;
mod cursor;
mod fault;
mod laws;
mod lpdu;
pub mod spdu;
pub mod tpdu;
mod writer;

pub use apdu::{Apdu, ApduReader};
pub use cursor::{Cursor, FieldLength, Part};
pub use fault::{ApplicationFault, Fault, LengthFault, LinkFault, SessionFault, TransportFault};
pub use laws::{
    bodies_lie_within, commands_read_back, lengths_are_shortest, lengths_read_back,
    lpdus_read_back, replies_read_back, worked_lengths,
};
pub use lpdu::{Fragment, LAST, LpduReader, MORE, write_lpdus};
pub use spdu::{SessionReply, SessionRequest, SpduReader, write_reply};
pub use tpdu::{Command, Response, ResponseObject, TpduReader, write_command};
pub use writer::{WriteFault, write_length, write_object, write_pieces, write_two_pieces};
