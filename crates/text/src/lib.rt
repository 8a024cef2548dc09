// Lines of text: reading them from an input, their words, and the bytes that words write.
#![tactic(auto)]

mod error;
mod lines;
mod words;

pub use error::LineError;
pub use lines::Lines;
pub use words::{byte, is_blank, read_bytes, split_word};
