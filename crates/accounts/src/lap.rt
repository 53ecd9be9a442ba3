// A list of banks that is a lap for a table: one dwell on each in turn, repeated without end. Dwells are numbered from 0
// over all laps.
ghost use Rattle.std.specs.Prelude.{◌≡◌, ℕ, ◌+◌, ◌<◌, ◌≤◌, true, is_some, MatchOption};
ghost use Rattle.rig.specs.Orders.{again, LawfulForEver};
ghost use Rattle.banks.specs.Limits.{bank_at};
ghost use Rattle.banks.specs.Table.{dwell};
ghost use Rattle.readers.specs.Panelled.{panelled};
ghost use Rattle.readers.specs.Ticks.{settling_before, LapTicks, LongestWait};
ghost use Rattle.accounts.specs.Account.{FirstPlace, Lap, Occurs, Slack};

use banks::{Bank, BankTable, MOST_DWELLS};

// The table and the list: 1 to 4,096 dwells, each on a bank of the table.
#[derive(Clone, Copy)]
pub(crate) struct TableLap<'a> {
    table: &'a BankTable,
    list: &'a [u8],
    ghost lap: { Lap table.now list.now },
}

impl<'a> TableLap<'a> {
    // The table and the list, where the list is a lap for the table.
    pub(crate) fn of(table: &'a BankTable, list: &'a [u8]) -> Option<TableLap<'a>>
        ensures { MatchOption result (Lap table.now list.now → ⊥) (λ x. (x.table.now ≡ table.now) × (x.list.now ≡ list.now)) }
    {
        if list.is_empty() || list.len() > MOST_DWELLS {
            return None;
        }
        if !list.iter().all(|on| *on < table.count()) {
            return None;
        }
        Some(TableLap { table, list })
    }

    // The number of the bank of dwell n.
    fn on(&self, n: usize) -> u8
        ensures { result ≡ again self.now.list.now n }
    {
        self.list[n % self.list.len()]
    }

    // What the table says of that bank.
    fn bank(&self, n: usize) -> Bank
        ensures value { result ≡ bank_at self.now.table.now.banks (again self.now.list.now n) }
        ensures few { result.dwell ≤ 1000 }
    {
        self.table.at(self.on(n) as usize)
    }

    // The settling ticks before dwell n: none before the first dwell of all.
    fn settling_before(&self, n: usize) -> u16
        ensures value { result ≡ settling_before self.now.table.now (again self.now.list.now) n }
        ensures few { result ≤ 1000 }
    {
        match n.checked_sub(1) {
            None => 0,
            Some(before) => self.table.settling(self.bank(before).panel, self.on(n)),
        }
    }

    // The ticks of dwell n, with the settling before it.
    fn ticks_of(&self, n: usize) -> u32
        ensures value { result ≡ settling_before self.now.table.now (again self.now.list.now) n + dwell self.now.table.now (again self.now.list.now n) }
        ensures few { result ≤ 2000 }
    {
        self.settling_before(n) as u32 + self.bank(n).dwell as u32
    }

    // The ticks of one lap, from the end of the lap before.
    pub(crate) fn ticks(&self) -> u32
        ensures { LapTicks self.now.table.now self.now.list.now result }
    {
        let dwells = self.list.len();
        (dwells..2 * dwells).map(|n| self.ticks_of(n)).sum()
    }

    // The first place of the bank in the list.
    fn first_place(&self, bank: u8) -> Option<usize>
        ensures { MatchOption result (Occurs self.now.list.now bank → ⊥) (λ p. FirstPlace self.now.list.now bank p) }
    {
        self.list.iter().position(|on| *on == bank)
    }

    // The longest wait between dwells on the bank, over a whole lap that begins and ends with a dwell on it.
    fn longest_from(&self, bank: u8, first: usize) -> u32
        requires { FirstPlace self.now.list.now bank first }
        ensures { LongestWait self.now.table.now (again self.now.list.now) bank result }
    {
        let mut since = 0u32;
        let mut longest = 0u32;
        // By the numbers of dwells over all laps: the list is gone round from the first dwell on the bank.
        for n in first + 1..first + self.list.len() + 1 {
            let wait = since + self.settling_before(n) as u32;
            if self.on(n) == bank {
                longest = longest.max(wait);
                since = 0;
            } else {
                since = wait + self.bank(n).dwell as u32;
            }
        }
        longest
    }

    // The longest wait of the bank from one dwell on it to the next; none where the bank is not in the list.
    pub(crate) fn longest_wait(&self, bank: u8) -> Option<u32>
        ensures told { MatchOption result (Occurs self.now.list.now bank → ⊥) (λ w. LongestWait self.now.table.now (again self.now.list.now) bank w) }
        ensures round { LawfulForEver (panelled self.now.table.now) self.now.list.now → bank < self.now.table.now.count → is_some result ≡ true }
    {
        let first = self.first_place(bank)?;
        Some(self.longest_from(bank, first))
    }

    // By how much the bank's gap exceeds its longest wait; none where there is no such wait, or the gap is shorter.
    pub(crate) fn slack(&self, bank: u8) -> Option<u32>
        ensures left { MatchOption result ((s : ℕ) → Slack self.now.table.now self.now.list.now bank s → ⊥) (λ s. Slack self.now.table.now self.now.list.now bank s) }
        ensures round { LawfulForEver (panelled self.now.table.now) self.now.list.now → bank < self.now.table.now.count → is_some result ≡ true }
    {
        let longest = self.longest_wait(bank)?;
        let gap = self.table.at(bank as usize).gap as u32;
        gap.checked_sub(longest)
    }
}
