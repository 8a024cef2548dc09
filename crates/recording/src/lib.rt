// Recordings of exchanges: their lines, the joining of units, and the names of tags, statuses and resources.
#![tactic(auto)]

mod joiner;
mod line;
pub mod names;

pub use joiner::{JoinError, PartialUnit};
pub use line::{BadLine, Direction, LONGEST_LINE, RecordingLine, parse_line};
pub use text::LineError;
