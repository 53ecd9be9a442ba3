// The planner: from a feeder sheet to a round that runs.
#![tactic(auto)]

mod answer;
mod planned;
mod text;

pub use answer::{Answer, GRANT, ROWS, answer_sheet};
pub use listings::Finding;
pub use planned::{Planned, plan};
pub use text::plan_text;
