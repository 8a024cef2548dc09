// What a host asks of a resource: numbers and identifiers, the objects that a resource sends, and the interface with its meaning and laws.
#![tactic(auto)]

mod apdu_buf;
pub mod identifier;
mod interface;
mod number;

pub use apdu_buf::ApduBuf;
pub use interface::{Readiness, RefusalByte, Resource};
pub use number::{BoundedNumber, ConnectionId, SessionNumber, SlotNumber};
