// Reads a stored round.
ghost use Rattle.std.specs.Prelude.{◌≡◌, ◌+◌, length, is_ok, Decides, MatchResult};
ghost use Rattle.rig.specs.Checks.{OnlyMoves, told};
ghost use Rattle.frames.specs.Faults.{file_told};
ghost use Rattle.rounds.specs.Record.{Holds, list_of};
ghost use Rattle.rounds.specs.Stored.{IsStored, SomeStored, SomeRegular, OnlyRound, FirstFault, OnlyFault, last_line, in_file_at, Ended, EndFault};

use crate::parts::read_parts;
use crate::record::{Lap, RoundRecord};
use banks::{BankTable, read_front};
use frames::{FileFault, Unread};
use readers::PanelledReader;
use rig::{Unfit, check_list};

// The fault of a list that is refused, told at this line.
fn unlawful_at(line: u32, unfit: Unfit) -> FileFault
    ensures { result ≡ in_file_at line (told unfit) }
{
    let told = unfit.told();
    FileFault::Unlawful {
        line,
        lap: told.lap,
        position: told.position,
    }
}

// All lines are good: checks the list, and that nothing comes behind them, and puts the round into the record.
fn finish(
    table: BankTable,
    list: Lap,
    lines: &Unread,
    target: &mut RoundRecord,
) -> Result<(), FileFault>
    requires moves { OnlyMoves table.count list.items }
    requires behind { lines.now.line ≡ last_line table (length list.items) + 1 }
    ensures { MatchResult result (λ _. Ended table list.items lines.now.rest.now × Holds target.new table list.items) (λ e. EndFault table list.items lines.now.rest.now (file_told e) × (target.new ≡ target.old)) }
{
    let line = lines.line();
    let reader = PanelledReader::new(table);
    check_list(&reader, &list).map_err(|unfit| unlawful_at(line - 1, unfit))?;
    if !lines.rest().is_empty() {
        return Err(FileFault::AfterEnd { line });
    }
    target.hold(table, list);
    Ok(())
}

// Reads a stored round into the record; a refusal leaves the record as it was.
pub fn read_round(bytes: &[u8], target: &mut RoundRecord) -> Result<(), FileFault>
    ensures reply { MatchResult result (λ _. IsStored bytes.now target.new.table (list_of target.new)) (λ e. FirstFault bytes.now (file_told e) × (target.new ≡ target.old)) }
    ensures exact { Decides (is_ok result) (SomeStored bytes.now) }
    ensures regular { Decides (is_ok result) (SomeRegular bytes.now) }
    ensures only { MatchResult result (λ _. OnlyRound bytes.now target.new) (λ e. OnlyFault bytes.now (file_told e)) }
{
    let front = read_front(bytes)?;
    let mut lines = front.lines;
    let list = read_parts(&mut lines, front.table.count(), usize::from(front.dwells))?;
    finish(front.table, list, &lines, target)
}
