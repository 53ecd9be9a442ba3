// The account of a round, in ticks, and the account of a feeder sheet.
#![tactic(auto)]

mod account;
mod lap;
mod needs;
mod report;

pub use account::{dwells_on, is_lap, lap_ticks, longest_wait, slack};
pub use needs::SheetAccount;
pub use report::{
    Account, BankAccount, BankSlack, RoundAccount, bank_account, least_slack, round_account,
};
