// The search book: a depth-first search over any rig for a round that is lawful for ever,
// in rows of lent memory, with effort granted in portions.
#![tactic(auto)]

mod book;
mod calls;
mod copy;
mod round;
mod row;
mod run;
mod scan;
mod step;

pub use book::Book;
pub use calls::{Call, Outcome, Reply, Short};
pub use copy::Uncopied;
pub use row::Row;
pub use run::run_calls;
