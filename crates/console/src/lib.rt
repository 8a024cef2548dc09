// A console over a player of any resource: a call a line in, an answer a line out.
#![tactic(auto)]

mod arguments;
mod console;
mod outcome;
mod request;

pub use console::{asks_help, help, play};
pub use outcome::PrintedAnswer;
pub use request::{LONGEST, LineFault, Request, parse};
pub use text::LineError;
