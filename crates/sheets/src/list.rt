// Reads the feeders of a sheet: their lines, and the line that counts them.
ghost use Rattle.std.specs.Prelude.{◌≡◌, ◌+◌, ◌≤◌, cond, [], length, MatchResult};
ghost use Rattle.frames.specs.Digits.{AllDigits, numeral};
ghost use Rattle.frames.specs.Faults.{file_told};
ghost use Rattle.frames.specs.BadLines.{outside};
ghost use Rattle.frames.specs.Fields.{ToldColumn, number_in};
ghost use Rattle.frames.specs.BadLinesAmong.{BadLineAmong};
ghost use Rattle.sheets.specs.Faults.{sheet_told};
ghost use Rattle.sheets.specs.Limits.{most_swap};
ghost use Rattle.sheets.specs.Feeders.{AllServed, FeederWithin};
ghost use Rattle.sheets.specs.SheetLines.{feeder_body, feeder_column, count_column, due_behind, column_behind, line_behind, NextRead, ListRead, FeederFault};

use crate::faults::SheetFault;
use crate::feeder::Feeder;
use crate::head::Head;
use crate::limits::{MOST_NUMBER, MOST_READING, MOST_SWAP};
use crate::listed::FeederList;
use frames::{Field, FileFault, Frame, Unread, read_fields};

// The swap time in the digits of a feeder's line, which has to be at least so long.
fn swap_in(body: &[u8], least: u32, line: u32) -> Result<u32, FileFault>
    ensures { MatchResult result (λ n. (n ≡ number_in 10 4 body.now) × (least ≤ n) × (n ≤ most_swap)) (λ e. ToldColumn (cond (outside least most_swap (number_in 10 4 body.now)) 13 0) line e) }
{
    let swap = Field {
        place: 10,
        width: 4,
        low: least,
        high: MOST_SWAP as u32,
    };
    let [swap] = read_fields(body, line, &[swap])?;
    Ok(swap)
}

// The feeder in the digits of its line.
fn feeder_in(body: &[u8], head: Head, line: u32) -> Result<Feeder, FileFault>
    requires digits { AllDigits body.now }
    requires size { length body.now ≡ 14 }
    ensures { MatchResult result (λ f. FeederWithin head.banks f × (body.now ≡ feeder_body f)) (λ e. ToldColumn (feeder_column head.banks body.now) line e) }
{
    let number = Field {
        place: 0,
        width: 4,
        low: 0,
        high: MOST_NUMBER as u32,
    };
    let bank = Field {
        place: 4,
        width: 2,
        low: 0,
        high: head.banks as u32 - 1,
    };
    let reading = Field {
        place: 6,
        width: 4,
        low: 1,
        high: MOST_READING as u32,
    };
    let [number, bank, reading] = read_fields(body, line, &[number, bank, reading])?;
    let swap = swap_in(body, 2 * reading + 1, line)?;
    Ok(Feeder {
        number: number as u16,
        bank: bank as u8,
        reading: reading as u16,
        swap: swap as u16,
    })
}

// Accepts the digits of a line that counts n feeders.
fn count_in(body: &[u8], n: u32, line: u32) -> Result<(), FileFault>
    requires digits { AllDigits body.now }
    requires size { length body.now ≡ 4 }
    ensures { MatchResult result (λ _. body.now ≡ numeral 4 n) (λ e. ToldColumn (count_column n body.now) line e) }
{
    let count = Field {
        place: 0,
        width: 4,
        low: n,
        high: n,
    };
    read_fields(body, line, &[count])?;
    Ok(())
}

// Reads the line behind those of the feeders that are listed: one more feeder, or nothing where it is their count.
fn read_next(lines: &mut Unread, head: Head, list: &FeederList) -> Result<Option<Feeder>, FileFault>
    ensures { MatchResult result (λ o. NextRead head.banks list.now.count lines.old.rest.now o lines.new.rest.now × (lines.new.line ≡ lines.old.line + 1)) (λ e. BadLineAmong (due_behind list.now.count) (column_behind head.banks list.now.count) lines.old.rest.now lines.old.line (file_told e)) }
{
    let line = lines.line();
    match lines.next_frame()? {
        Frame::Feeder(body) if list.has_room() => Ok(Some(feeder_in(body, head, line)?)),
        Frame::FeederCount(body) if list.count > 0 => {
            count_in(body, list.count as u32, line)?;
            Ok(None)
        }
        _ => Err(FileFault::Misplaced { line }),
    }
}

// Reads the lines of the feeders up to the one that counts them.
fn read_feeders(lines: &mut Unread, head: Head) -> Result<FeederList, SheetFault>
    requires { lines.old.line ≡ 2 + head.banks }
    ensures { MatchResult result (λ l. ListRead head.banks lines.old.rest.now l.feeders l.count lines.new.rest.now × (lines.new.line ≡ line_behind head.banks l.count + 1)) (λ e. FeederFault head.banks lines.old.rest.now (sheet_told e)) }
{
    let mut list = FeederList::new();
    loop {
        let line = lines.line();
        let Some(feeder) = read_next(lines, head, &list)? else {
            return Ok(list);
        };
        if list.has_number(feeder.number) {
            return Err(SheetFault::Repeated { line });
        }
        list.push(feeder);
    }
}

// Reads all that comes behind the bank lines: the feeders, of which every bank has one, and nothing after their count.
pub(crate) fn read_list(lines: &mut Unread, head: Head) -> Result<FeederList, SheetFault>
    requires { lines.old.line ≡ 2 + head.banks }
    ensures { MatchResult result (λ l. ListRead head.banks lines.old.rest.now l.feeders l.count [] × AllServed head.banks l.feeders l.count) (λ e. FeederFault head.banks lines.old.rest.now (sheet_told e)) }
{
    let list = read_feeders(lines, head)?;
    let end = lines.line();
    let bare = SheetFault::NoFeeder { line: end - 1 };
    list.bare_bank(head.banks).map_or(Ok(()), |_| Err(bare))?;
    if !lines.rest().is_empty() {
        return Err(SheetFault::File(FileFault::AfterEnd { line: end }));
    }
    Ok(list)
}
