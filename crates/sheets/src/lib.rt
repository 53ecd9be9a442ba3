// Feeder sheets.
#![tactic(auto)]

mod faults;
mod feeder;
mod head;
mod limits;
mod lines;
mod list;
mod listed;
mod reader;
mod sheet;
#[cfg(test)]
mod tests;

pub use faults::SheetFault;
pub use feeder::Feeder;
pub use limits::{
    FEWEST_BANKS, MOST_BANKS, MOST_FEEDERS, MOST_NUMBER, MOST_PANEL, MOST_READING, MOST_SETTLE,
    MOST_SWAP,
};
pub use reader::read_sheet;
pub use sheet::{BankNeeds, Sheet, bank_needs};
