// Round records: a bank table with a round that is lawful for ever on its panelled reader.
#![tactic(auto)]

mod parts;
mod record;
mod stored;

pub use parts::{PART_SIZE, parts_of};
pub use record::RoundRecord;
pub use stored::read_round;
