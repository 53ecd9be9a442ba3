// The bank table of a sheet.
ghost use Rattle.std.specs.Prelude.{ℕ, ◌<◌, ◌≤◌};
ghost use Rattle.banks.specs.Limits.{Empty, bank_at};
ghost use Rattle.banks.specs.FromSheet.{FromSheet, TableOf};

use crate::table::{Bank, BankTable};
use sheets::{MOST_BANKS, Sheet, bank_needs};

// What stands at place i: a bank of the sheet, or zeros behind the last bank.
fn place_of(sheet: &Sheet, i: u8) -> Bank
    ensures bank { i < sheet.now.count → FromSheet sheet.now i result }
    ensures unused { sheet.now.count ≤ i → Empty result }
{
    let bank = bank_needs(sheet, i).map(|needs| Bank {
        panel: needs.panel,
        dwell: needs.dwell,
        gap: needs.gap,
    });
    bank.unwrap_or_default()
}

// All banks of a sheet, and zeros behind them.
fn banks_of(sheet: &Sheet) -> [Bank; MOST_BANKS]
    ensures banks { (i : ℕ) → i < sheet.now.count → FromSheet sheet.now i (bank_at result i) }
    ensures unused { (i : ℕ) → sheet.now.count ≤ i → Empty (bank_at result i) }
{
    let mut banks = [Bank::default(); MOST_BANKS];
    for (i, bank) in banks.iter_mut().enumerate() {
        *bank = place_of(sheet, i as u8);
    }
    banks
}

impl BankTable {
    // The table of a sheet: its banks with their panels, and what their feeders need.
    pub fn of_sheet(sheet: &Sheet) -> BankTable
        ensures { TableOf sheet.now result }
    {
        BankTable::of(sheet.count(), sheet.settle(), banks_of(sheet))
    }
}
