// Deadlines of the banks, states that no order of dwells can save, and the choice of the bank that is due first.
#![tactic(auto)]

mod choice;
mod deadline;

pub use choice::choose;
pub use deadline::{deadlines, due_by, is_hopeless};
pub use rig::Moves;

// Moves are numbered from 0, below this.
pub const MOST_MOVES: usize = rig::MOST_MOVES as usize;
