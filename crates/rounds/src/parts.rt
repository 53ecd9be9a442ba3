// Reads the list of a stored round: its lines behind those of the bank table.
ghost use Rattle.std.specs.Prelude.{◌≡◌, ◌+◌, ◌/◌, ◌%◌, ◌≤◌, length, MatchResult};
ghost use Rattle.frames.specs.Digits.{AllDigits};
ghost use Rattle.frames.specs.Faults.{file_told};
ghost use Rattle.frames.specs.BadLines.{BadLine};
ghost use Rattle.frames.specs.Fields.{ToldColumn};
ghost use Rattle.banks.specs.Stored.{most_dwells};
ghost use Rattle.rounds.specs.Parts.{parts_of, bad_bank, part_column, BanksPut, PartPut, PartsRead, PartsFault};

use crate::record::Lap;
use frames::{Field, FileFault, Frame, Unread, number, read_fields};

// The most dwells of one line.
pub const PART_SIZE: usize = 16;

// How many lines a list of so many dwells has.
pub fn parts_of(dwells: usize) -> usize
    ensures { result ≡ parts_of dwells }
{
    dwells.div_ceil(PART_SIZE)
}

// The column of the first bank of a line.
const FIRST_BANK: u32 = 5;

// Puts the banks that the digits tell, two for each, behind the list; each of them is to be one of the table.
fn put_banks(digits: &[u8], line: u32, banks: u8, list: &mut Lap) -> Result<(), FileFault>
    requires digits { AllDigits digits.now }
    requires pairs { length digits.now % 2 ≡ 0 }
    requires room { length list.old.items + length digits.now / 2 ≤ most_dwells }
    ensures { MatchResult result (λ _. BanksPut banks digits.now list.old.items list.new.items) (λ e. ToldColumn (bad_bank banks (length digits.now / 2) 5 digits.now) line e) }
{
    for (k, two) in digits.chunks_exact(2).enumerate() {
        let bank = number(two);
        if bank >= u32::from(banks) {
            let column = FIRST_BANK + 2 * k as u32;
            return Err(FileFault::Field { line, column });
        }
        list.push(bank as u8);
    }
    Ok(())
}

// Reads one line of the list: puts as many banks as are due behind the list.
fn read_part(lines: &mut Unread, banks: u8, due: u32, list: &mut Lap) -> Result<(), FileFault>
    requires { length list.old.items + due ≤ most_dwells }
    ensures { MatchResult result (λ _. PartPut banks due lines.old list.old.items lines.new list.new.items) (λ e. BadLine 19 (part_column banks due) lines.old.rest.now lines.old.line (file_told e)) }
{
    let line = lines.line();
    let Frame::RoundPart(body) = lines.next_frame()? else {
        return Err(FileFault::Misplaced { line });
    };
    let count = Field {
        place: 0,
        width: 2,
        low: due,
        high: due,
    };
    read_fields(body, line, &[count])?;
    put_banks(&body[2..], line, banks, list)
}

// Reads all lines of the list, which announce so many dwells.
pub(crate) fn read_parts(lines: &mut Unread, banks: u8, dwells: usize) -> Result<Lap, FileFault>
    requires few { dwells ≤ most_dwells }
    requires behind { lines.old.line ≡ 2 + banks }
    ensures { MatchResult result (λ xs. (length xs.items ≡ dwells) × PartsRead banks lines.old.rest.now xs.items lines.new.rest.now × (lines.new.line ≡ (2 + banks) + parts_of dwells)) (λ e. PartsFault banks dwells lines.old.rest.now (file_told e)) }
{
    let mut list = Lap::new();
    for _ in 0..parts_of(dwells) {
        let due = PART_SIZE.min(dwells - list.len());
        read_part(lines, banks, due as u32, &mut list)?;
    }
    Ok(list)
}
