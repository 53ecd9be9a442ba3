// The choice of the next bank to try.
ghost use Rattle.std.specs.Prelude.{◌≡◌, ℕ, ◌<◌, ◌≤◌, true, MatchOption};
ghost use Rattle.banks.specs.Places.{age_at};
ghost use Rattle.sheets.specs.Limits.{most_banks};
ghost use Rattle.rig.specs.Sets.{in_set};
ghost use Rattle.deadlines.specs.Deadlines.{deadline, earliest_due, DueFirst, NoneUntried};

use crate::deadline::deadlines;
use banks::BankTable;
use rig::Moves;
use sheets::MOST_BANKS;

// Of the untried banks below the count, the one with the least deadline, and the lowest number among equals.
fn due_first(count: u8, deadlines: [u32; MOST_BANKS], untried: &Moves) -> Option<u8>
    requires { count ≤ most_banks }
    ensures { MatchOption result (NoneUntried count (in_set untried.now.held)) (λ b. DueFirst count (age_at deadlines) (in_set untried.now.held) b) }
{
    (0..count)
        .zip(deadlines.iter())
        .filter(|(i, _)| untried.holds(*i))
        .min_by_key(|(_, deadline)| **deadline)
        .map(|(i, _)| i)
}

// The untried bank with the least deadline, the lowest number among equals; 0 where no bank is untried (docs/RULES.md).
// Untried moves that are no banks of the table do not count.
pub fn choose(table: &BankTable, ages: &[u16; MOST_BANKS], untried: &Moves) -> u8
    ensures value { result ≡ earliest_due table.now.count (deadline table.now (age_at ages.now)) (in_set untried.now.held) }
    ensures some { (i : ℕ) → i < table.now.count → in_set untried.now.held i ≡ true → DueFirst table.now.count (deadline table.now (age_at ages.now)) (in_set untried.now.held) result }
    ensures none { NoneUntried table.now.count (in_set untried.now.held) → result ≡ 0 }
{
    due_first(table.count(), deadlines(table, ages), untried).unwrap_or(0)
}

#[cfg(test)]
mod tests {
    use super::*;

    #[test]
    fn least_deadline_and_lowest_number(rt: HostRuntime) {
        let table = BankTable::stock();
        let mut ages = [0; MOST_BANKS];
        let both = Moves::none().with(1).with(0).with(5);
        assert_eq!(rt; choose(&table, &ages, &both), 0);
        ages[1] = 1;
        assert_eq!(rt; choose(&table, &ages, &both), 1);
        assert_eq!(rt; choose(&table, &ages, &both.without(1)), 0);
        assert_eq!(rt; choose(&table, &ages, &Moves::none().with(5)), 0);
    }
}
