// The answer of the planner to a sheet: 1,024 rows and one grant of 4,096 visits.
ghost use Rattle.std.specs.Prelude.{◌≡◌, length};
ghost use Rattle.rig.specs.Guides.{guided};
ghost use Rattle.listings.specs.Findings.{finding_of};
ghost use Rattle.planner.specs.Answers.{Answers, AnswersOn, RecordOf, ServesSheet, one_grant_of, plan_rows};

use crate::planned::{Planned, plan};
use banks::BankTable;
use listings::Finding;
use readers::{PanelledReader, PlainReader};
use rig::{GuidedRig, Rig};
use rounds::RoundRecord;
use search::{Call, Outcome, Reply, Row};
use sheets::Sheet;

// The rows that are searched in, and the visits that are granted.
pub const ROWS: usize = 1024;

pub const GRANT: u32 = 4096;

// What was found, with the record of the round where there is one, and the visits made.
#[derive(Drop)]
pub struct Answer {
    pub finding: Finding<RoundRecord>,
    pub visits: u32,
}

impl Answer {
    // The record of the round that was found; where none was found, that of the stock round.
    pub fn into_round(self) -> RoundRecord
        ensures { RecordOf self.finding result }
    {
        match self.finding {
            Finding::Round(round) => round,
            _ => RoundRecord::stock(),
        }
    }
}

// What a search came to, with the record of its round.
fn found(search: Outcome, round: RoundRecord) -> Finding<RoundRecord>
    ensures { result ≡ finding_of search.verdict round }
{
    Finding::of(search.verdict, round)
}

// The answer that one grant over these rows gives.
fn answer_on<R: GuidedRig>(sheet: &Sheet, rows: &mut [Row<R::State>], calls: &[Call<R>]) -> Answer
    requires many { length rows.old ≡ plan_rows }
    requires one { (rig : R) × (calls.now ≡ one_grant_of rig) }
    ensures { (rig : R) → calls.now ≡ one_grant_of rig → ServesSheet sheet.now (R.Rig.means rig) → AnswersOn sheet.now (guided (R.Rig.means rig) (R.GuidedRig.guide rig)) result.finding result.visits }
{
    let mut replies = [Reply::Wiped];
    let mut room = [0u8; ROWS];
    let stock = RoundRecord::stock();
    let Planned { outcome, reader } = plan(sheet, rows, calls, &mut replies, &mut room, stock);
    match outcome {
        Ok(done) => Answer {
            finding: found(done, reader.stop()),
            visits: done.taken as u32,
        },
        Err(_) => unreachable(),
    }
}

// Searches for a round for the sheet: on the plain reader where nothing settles, and else on the panelled one.
pub fn answer_sheet(sheet: &Sheet) -> Answer
    ensures { Answers sheet.now result.finding result.visits }
{
    let table = BankTable::of_sheet(sheet);
    // Each arm makes its own rows: of an array of a type parameter it is not known in generic code that it fits in memory.
    if sheet.settle() == 0 {
        let rig = PlainReader::new(table);
        let mut rows = [Row::new(rig.rest()); ROWS];
        answer_on(sheet, &mut rows, &[Call::Grant { rig, visits: GRANT }])
    } else {
        let rig = PanelledReader::new(table);
        let mut rows = [Row::new(rig.rest()); ROWS];
        answer_on(sheet, &mut rows, &[Call::Grant { rig, visits: GRANT }])
    }
}
