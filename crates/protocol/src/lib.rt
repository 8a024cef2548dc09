// The host's calls on a slot, as definitions, and the laws over every list of calls: states and commands, refusals, and a function for each law.
#![tactic(auto)]

mod laws;
mod refusal;
mod state;

pub use laws::{
    COMMAND_LIMIT, absent_as_new, reached_by_calls, records_sound, room_suffices, sessions_agree,
    slots_apart, spare_takes_over, turns_follow_the_calls,
};
pub use refusal::{Refusal, write_byte};
pub use state::{OwedCommand, SessionRow, State};
