// A slot's record, and every call on it beside the resource that is told.
#![tactic(auto)]

mod agreed_size;
mod buffer;
mod connection;
mod context;
mod receive;
mod record;
mod session;
mod transmit;

pub use agreed_size::AgreedSize;
pub use buffer::Buffer;
pub use connection::{Change, Connection};
pub use context::SlotContext;
pub use receive::feed;
pub use record::{NumberedRow, Record, session_number};
pub use transmit::{WrittenCommand, next};
