// Conversations of a host with modules, consoles whose input or output fails, and the worked examples as a law.
#![tactic(auto)]

mod consoles;
mod conversations;
mod worked;

pub use worked::bytes_on_the_wire;
