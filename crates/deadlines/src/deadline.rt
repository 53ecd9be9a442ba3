// Deadlines, and whether some order of dwells can still meet them.
ghost use Rattle.std.specs.Prelude.{◌≡◌, false, Decides};
ghost use Rattle.banks.specs.Places.{age_at, spread};
ghost use Rattle.banks.specs.Table.{dwell};
ghost use Rattle.banks.specs.declared.table.BankTable.{BankTable as AnyTable};
ghost use Rattle.deadlines.specs.Deadlines.{deadline, due_sum, some_overrun, Hopeless, NoneMeets, SomeMeets};

use banks::BankTable;
use sheets::MOST_BANKS;
use std::array;

// The deadline of every bank, 0 at places without a bank.
pub fn deadlines(table: &BankTable, ages: &[u16; MOST_BANKS]) -> [u32; MOST_BANKS]
    ensures { result ≡ spread (deadline table.now (age_at ages.now)) }
{
    array::from_fn(|i| {
        let bank = table.at(i);
        (bank.gap as u32 + bank.dwell as u32).saturating_sub(ages[i] as u32)
    })
}

// The dwell of every bank, 0 at places without a bank.
fn dwells(table: &BankTable) -> [u16; MOST_BANKS]
    ensures { result ≡ spread (dwell table.now) }
{
    array::from_fn(|i| table.at(i).dwell)
}

// The sum of these dwells over the banks whose deadline is at most `by`.
fn due_of(dwells: [u16; MOST_BANKS], deadlines: [u32; MOST_BANKS], by: u32) -> u32
    ensures { (t : AnyTable) → dwells ≡ spread (dwell t) → result ≡ due_sum t (age_at deadlines) by }
{
    let mut sum = 0;
    for (i, dwell) in dwells.iter().enumerate() {
        let deadline = deadlines[i];
        if deadline <= by {
            sum += *dwell as u32;
        }
    }
    sum
}

// The ticks of one dwell on each bank whose deadline is at most `by`.
pub fn due_by(table: &BankTable, deadlines: [u32; MOST_BANKS], by: u32) -> u32
    ensures { result ≡ due_sum table.now (age_at deadlines) by }
{
    due_of(dwells(table), deadlines, by)
}

// Whether for some bank the dwells that are due by its deadline take longer than that.
fn some_overdue(table: &BankTable, deadlines: [u32; MOST_BANKS]) -> bool
    ensures { Decides result (Hopeless table.now (age_at deadlines)) }
{
    let banks = table.count() as usize;
    let dwells = dwells(table);
    deadlines
        .into_iter()
        .take(banks)
        .any(move |due| due_of(dwells, deadlines, due) > due)
}

// Whether the state with these ages is hopeless: no order of all banks meets the deadlines. Otherwise some order does.
pub fn is_hopeless(table: &BankTable, ages: &[u16; MOST_BANKS]) -> bool
    ensures value { result ≡ some_overrun table.now (deadline table.now (age_at ages.now)) }
    ensures over { Decides result (Hopeless table.now (deadline table.now (age_at ages.now))) }
    ensures never { Decides result (NoneMeets table.now (deadline table.now (age_at ages.now))) }
    ensures order { result ≡ false → SomeMeets table.now (deadline table.now (age_at ages.now)) }
{
    some_overdue(table, deadlines(table, ages))
}

#[cfg(test)]
mod tests {
    use super::*;

    #[test]
    fn one_dwell_too_late(rt: HostRuntime) {
        let table = BankTable::stock();
        let mut ages = [0; MOST_BANKS];
        assert!(rt; !is_hopeless(&table, &ages));
        ages[1] = 1;
        assert!(rt; !is_hopeless(&table, &ages));
        ages[0] = 1;
        assert_eq!(rt; due_by(&table, deadlines(&table, &ages), 1), 2);
        assert!(rt; is_hopeless(&table, &ages));
    }
}
