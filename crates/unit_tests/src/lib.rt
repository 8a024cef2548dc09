// Tests of units, of the resources and of recordings, as tables of examples.
#![tactic(auto)]

mod recordings;
mod resources;
mod units;
