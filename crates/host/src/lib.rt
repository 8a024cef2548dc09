// A host: four slots over one resource, the turns that it hands out, and a player that holds them.
#![tactic(auto)]

mod call;
mod player;
mod sound_slot;
mod state;
mod turn;
mod turns;

pub use call::{Answer, Call, CallAndAnswer};
pub use player::Player;
pub use turn::host::Host;
pub use turn::{ConnectionStatus, FeedOutcome, NextCommand, Turn};
