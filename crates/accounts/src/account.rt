// The numbers of a lap's account, in ticks. A lap is a list of banks, one dwell on each in turn, repeated without end;
// dwells are numbered from 0 over all laps.
ghost use Rattle.std.specs.Prelude.{◌≡◌, ℕ, ◌<◌, ◌≤◌, true, length, is_some, Decides, count_by, MatchOption, nat_eq};
ghost use Rattle.rig.specs.Orders.{again, LawfulForEver};
ghost use Rattle.banks.specs.Stored.{most_dwells};
ghost use Rattle.readers.specs.Panelled.{panelled};
ghost use Rattle.readers.specs.Ticks.{InTime, LapTicks, LongestWait};
ghost use Rattle.accounts.specs.Account.{Lap, Occurs, Slack};

use crate::lap::TableLap;
use banks::BankTable;

// Whether the list is a lap for the table: 1 to 4,096 dwells, each on a bank of the table.
pub fn is_lap(table: &BankTable, list: &[u8]) -> bool
    ensures { Decides result (Lap table.now list.now) }
{
    TableLap::of(table, list).is_some()
}

// The ticks of one lap, from the end of the lap before; none where the list is no lap.
pub fn lap_ticks(table: &BankTable, list: &[u8]) -> Option<u32>
    ensures { MatchOption result (Lap table.now list.now → ⊥) (λ n. Lap table.now list.now × LapTicks table.now list.now n) }
{
    let lap = TableLap::of(table, list)?;
    Some(lap.ticks())
}

// How many dwells of a lap are on the bank.
pub fn dwells_on(list: &[u8], bank: u8) -> usize
    ensures { result ≡ count_by (λ x. nat_eq x bank) list.now }
{
    list.iter().filter(|on| **on == bank).count()
}

// The longest wait of the bank from one dwell on it to the next, as the lap is repeated without end;
// none where the list is no lap or the bank is not in it. In a round every bank of the table has one.
pub fn longest_wait(table: &BankTable, list: &[u8], bank: u8) -> Option<u32>
    ensures told { MatchOption result (Lap table.now list.now → Occurs list.now bank → ⊥) (λ w. Lap table.now list.now × LongestWait table.now (again list.now) bank w) }
    ensures round { length list.now ≤ most_dwells → LawfulForEver (panelled table.now) list.now → bank < table.now.count → is_some result ≡ true }
{
    TableLap::of(table, list)?.longest_wait(bank)
}

// By how much the bank's gap exceeds its longest wait; none where there is no such wait, or the gap is shorter.
// In a round every bank of the table has one, and is served in time.
pub fn slack(table: &BankTable, list: &[u8], bank: u8) -> Option<u32>
    ensures left { MatchOption result ((s : ℕ) → Slack table.now list.now bank s → ⊥) (λ s. Slack table.now list.now bank s) }
    ensures round { length list.now ≤ most_dwells → LawfulForEver (panelled table.now) list.now → bank < table.now.count → is_some result ≡ true }
    ensures served { LawfulForEver (panelled table.now) list.now → bank < table.now.count → InTime table.now (again list.now) bank }
{
    TableLap::of(table, list)?.slack(bank)
}

#[cfg(test)]
mod tests {
    use super::*;

    #[test]
    fn two_banks_in_turn(rt: HostRuntime) {
        let table = BankTable::stock();
        let list = [0u8, 1];
        assert_eq!(rt; lap_ticks(&table, &list), Some(2));
        assert_eq!(rt; dwells_on(&list, 1), 1);
        assert_eq!(rt; longest_wait(&table, &list, 1), Some(1));
        assert_eq!(rt; slack(&table, &list, 1), Some(0));
        assert_eq!(rt; lap_ticks(&table, &[0u8, 2]), None);
    }

    #[test]
    fn a_bank_that_waits_too_long(rt: HostRuntime) {
        let table = BankTable::stock();
        let list = [0u8, 1, 1];
        assert_eq!(rt; longest_wait(&table, &list, 0), Some(2));
        assert_eq!(rt; slack(&table, &list, 0), None);
        assert_eq!(rt; longest_wait(&table, &list, 1), Some(1));
    }
}
