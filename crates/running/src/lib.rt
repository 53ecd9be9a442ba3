// Running a round: a reader that is started on a round record tells its dwells one after another.
#![tactic(auto)]

mod reader;
#[cfg(test)]
mod tests;

pub use reader::RunningReader;
