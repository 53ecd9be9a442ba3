// Bank tables, those of sheets, and the lines of a stored round that list one.
#![tactic(auto)]

mod head;
mod listed;
mod settling;
mod stored;
mod table;

pub use frames::MOST_BYTES;
pub use sheets::{FEWEST_BANKS, MOST_BANKS, MOST_PANEL, MOST_SETTLE};
pub use stored::{MOST_DWELLS, RoundFront, StoredTable, read_front, read_table};
pub use table::{Bank, BankTable, MOST_DWELL, MOST_GAP};
