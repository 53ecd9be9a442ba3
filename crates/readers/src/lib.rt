// The plain and the panelled reader of a bank table, as rigs.
#![tactic(auto)]

mod ages;
mod panelled;
mod plain;
mod ticks;

pub use panelled::{PanelledReader, ReaderState};
pub use plain::{PlainReader, PlainState};
pub use ticks::lawful_is_regular;
