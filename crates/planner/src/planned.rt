// Searches for a round for a sheet, and starts a reader on it.
ghost use Rattle.std.specs.Prelude.{◌≡◌, ℕ, ◌+◌, ◌≤◌, length, IfOk, Some};
ghost use Rattle.sheets.specs.declared.sheet.Sheet.{Sheet as AnySheet};
ghost use Rattle.banks.specs.FromSheet.{TableOf};
ghost use Rattle.rig.specs.Guides.{guided};
ghost use Rattle.search.specs.Promised.{Searched};
ghost use Rattle.running.specs.Told.{reply_at, told};
ghost use Rattle.running.specs.Swaps.{NoSwapMissed};
ghost use Rattle.planner.specs.Plans.{RunsOn};

use banks::BankTable;
use rig::GuidedRig;
use rounds::RoundRecord;
use running::RunningReader;
use search::{Call, Outcome, Reply, Row, Short, run_calls};
use sheets::Sheet;

// What the calls came to, and the reader that was started.
#[derive(Drop)]
pub struct Planned {
    pub outcome: Result<Outcome, Short>,
    pub reader: RunningReader,
}

// The round that the calls ended with, if it makes a record with the bank table of the sheet, and otherwise the one handed in.
fn round_to_run(
    sheet: &Sheet,
    outcome: &Result<Outcome, Short>,
    room: &[u8],
    handed: RoundRecord,
) -> RoundRecord
    requires { IfOk outcome.now (λ x. (n : ℕ) → x.round ≡ Some n → x.from + n ≤ length room.now) }
    ensures { RunsOn sheet.now room.now outcome.now handed result }
{
    let Ok(done) = outcome else {
        return handed;
    };
    let Some(length) = done.round else {
        return handed;
    };
    let mut round = handed;
    let table = BankTable::of_sheet(sheet);
    let _ = round.fill(table, &room[done.from..done.from + length]);
    round
}

// Runs a list of calls on a fresh book over the rows. If they end with a round that makes a record with the bank table of the sheet,
// a reader is started on that record; otherwise on the record handed in, whichever it is.
pub fn plan<R: GuidedRig>(
    sheet: &Sheet,
    rows: &mut [Row<R::State>],
    calls: &[Call<R>],
    replies: &mut [Reply],
    room: &mut [u8],
    handed: RoundRecord,
) -> Planned
    ensures searched { Searched (λ r. guided (R.Rig.means r) (R.GuidedRig.guide r)) rows.old calls.now replies.old room.old rows.new replies.new room.new result.outcome }
    ensures runs { RunsOn sheet.now room.new result.outcome handed result.reader.round }
    ensures starts { (n : ℕ) → told result.reader n ≡ reply_at result.reader.round n }
    ensures swaps { (s : AnySheet) → TableOf s result.reader.round.table → NoSwapMissed s (told result.reader) }
{
    let outcome = run_calls(rows, calls, replies, room);
    let round = round_to_run(sheet, &outcome, room, handed);
    Planned {
        outcome,
        reader: RunningReader::start(round),
    }
}
