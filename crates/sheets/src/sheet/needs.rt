// What a bank needs, by the feeders in it.
ghost use Rattle.std.specs.Prelude.{◌≡◌, ◌≤◌, MatchOption};
ghost use Rattle.sheets.specs.Needs.{grown, NeedsOf};

use crate::feeder::Feeder;
use crate::limits::MOST_SWAP;
use crate::sheet::Sheet;

// How many feeders a bank has, its panel, its dwell and gap, and the numbers of the feeders that set these two.
#[derive(Clone, Copy, PartialEq, Eq, Debug)]
pub struct BankNeeds {
    pub feeders: usize,
    pub panel: u8,
    pub dwell: u16,
    pub dwell_feeder: u16,
    pub gap: u16,
    pub gap_feeder: u16,
}

// The needs with one more feeder, which is counted already.
fn with_feeder(needs: BankNeeds, feeder: Feeder) -> BankNeeds
    ensures { result ≡ grown needs feeder }
{
    let mut more = needs;
    if feeder.reading > needs.dwell {
        more.dwell = feeder.reading;
        more.dwell_feeder = feeder.number;
    }
    let allowance = feeder.allowance();
    if allowance < needs.gap {
        more.gap = allowance;
        more.gap_feeder = feeder.number;
    }
    more
}

// The needs of a bank; nothing for a number that is no bank.
pub fn bank_needs(sheet: &Sheet, bank: u8) -> Option<BankNeeds>
    ensures { MatchOption result (sheet.now.count ≤ bank) (λ needs. NeedsOf sheet.now bank needs) }
{
    let panel = sheet.panel(bank as usize)?;
    let feeders = sheet.feeders();
    let none = BankNeeds {
        feeders: feeders.iter().filter(|f| f.bank == bank).count(),
        panel,
        dwell: 0,
        dwell_feeder: 0,
        gap: MOST_SWAP,
        gap_feeder: 0,
    };
    let of_bank = feeders.iter().copied().filter(|f| f.bank == bank);
    Some(of_bank.fold(none, with_feeder))
}
