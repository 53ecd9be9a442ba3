// Listings: the frames of verdicts, refusals and stored rounds, written into a lent buffer.
#![tactic(auto)]

mod answers;
mod fields;
mod finding;
mod frame;
mod lines;
mod listed;
mod short;
#[cfg(test)]
mod tests;

pub use answers::write_answer;
pub use finding::Finding;
pub use frame::{write_refusal, write_verdict};
pub use lines::write_round;
pub use short::TooShort;
