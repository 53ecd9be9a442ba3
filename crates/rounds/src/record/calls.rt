// Making, filling and asking a round record.
ghost use Rattle.std.specs.Prelude.{◌≡◌, ◌-◌, [], ◌∷◌, length, replicate, is_ok, Decides, MatchResult};
ghost use Rattle.sheets.specs.Limits.{most_banks};
ghost use Rattle.banks.specs.Limits.{no_bank, stock_bank};
ghost use Rattle.rig.specs.Checks.{told};
ghost use Rattle.rounds.specs.Record.{list_of, Holds, KeepsGaps, MakesRecord, RecordFault};

use crate::record::{Lap, RoundRecord};
use banks::{BankTable, MOST_DWELLS};
use readers::PanelledReader;
use rig::{Unfit, check_list};

impl RoundRecord {
    // Where every record begins: two banks with dwell 1, gap 1 and panel 0, no settling, and the round 0, 1.
    pub fn stock() -> RoundRecord
        ensures count { result.table.count ≡ 2 }
        ensures settle { result.table.settle ≡ 0 }
        ensures banks { result.table.banks ≡ stock_bank ∷ stock_bank ∷ replicate (most_banks - 2) no_bank }
        ensures list { list_of result ≡ 0 ∷ 1 ∷ [] }
    {
        let mut list = Lap::new();
        list.push(0);
        list.push(1);
        RoundRecord {
            table: BankTable::stock(),
            list,
        }
    }

    // The table of the record.
    pub fn table(&self) -> BankTable
        ensures { result ≡ self.now.table }
    {
        self.table
    }

    // The banks of the lap, in their order.
    pub fn list(&self) -> &[u8]
        ensures value { result.now ≡ list_of self.now }
        ensures len { length result.now ≡ length (list_of self.now) }
    {
        self.list.as_slice()
    }

    // Takes this table and this list, whose repetition is known to be lawful.
    pub(crate) fn hold(&mut self, table: BankTable, list: Lap)
        requires { MakesRecord table list.items }
        ensures { Holds self.new table list.items }
    {
        *self = RoundRecord { table, list };
    }

    // Takes this table and this list where they make a record; a refusal leaves the record as it was.
    pub fn fill(&mut self, table: BankTable, list: &[u8]) -> Result<(), Unfit>
        ensures reply { MatchResult result (λ _. Holds self.new table list.now) (λ e. RecordFault table list.now (told e) × (self.new ≡ self.old)) }
        ensures exact { Decides (is_ok result) (MakesRecord table list.now) }
        ensures regular { Decides (is_ok result) (KeepsGaps table list.now) }
    {
        let too_long = Unfit::NoMove {
            position: MOST_DWELLS,
        };
        let lap = Lap::try_from(list).or(Err(too_long))?;
        check_list(&PanelledReader::new(table), list)?;
        self.hold(table, lap);
        Ok(())
    }
}
