// Reads the bank table of a stored round from its first lines. They are read as those of a sheet are; what is the same in both, the
// next frame and a loop over the places, is shorter than a trait that would name the fields, columns and texts of each.
ghost use Rattle.std.specs.Prelude.{◌≡◌, ◌+◌, ◌≤◌, ◌++◌, length, drop, MatchResult};
ghost use Rattle.frames.specs.Faults.{file_told};
ghost use Rattle.frames.specs.BadLines.{BadLine};
ghost use Rattle.banks.specs.Limits.{BankWithin};
ghost use Rattle.banks.specs.Stored.{head_line, bank_line, head_column, bank_column, BanksRead, BankFault, TableRead, TableFault};

use crate::head::Head;
use crate::table::{Bank, BankTable, MOST_DWELL, MOST_GAP};
use frames::{Field, FileFault, Frame, Unread, read_fields};
use sheets::{FEWEST_BANKS, MOST_BANKS, MOST_PANEL, MOST_SETTLE};

// The most dwells of a round.
pub const MOST_DWELLS: usize = 4096;

// The fields of a head line: the number of banks, the settle time, and the number of dwells.
const HEAD: [Field; 3] = [
    Field {
        place: 0,
        width: 2,
        low: FEWEST_BANKS as u32,
        high: MOST_BANKS as u32,
    },
    Field {
        place: 2,
        width: 4,
        low: 0,
        high: MOST_SETTLE as u32,
    },
    Field {
        place: 6,
        width: 4,
        low: 1,
        high: MOST_DWELLS as u32,
    },
];

// What the lines of a table say: the table, the number of dwells that follow, and how many bytes these lines are.
#[derive(Clone, Copy)]
pub struct StoredTable {
    pub table: BankTable,
    pub dwells: u16,
    pub end: usize,
}

// The front of a stored round: the table, the number of dwells that its head announces, and the lines that are yet to be read.
#[derive(Clone, Copy)]
pub struct RoundFront<'a> {
    pub table: BankTable,
    pub dwells: u16,
    pub lines: Unread<'a>,
}

// Reads the head line.
fn read_head(lines: &mut Unread) -> Result<Head, FileFault>
    ensures { MatchResult result (λ h. (lines.old.rest.now ≡ head_line h.banks h.settle h.dwells ++ lines.new.rest.now) × (lines.new.line ≡ lines.old.line + 1)) (λ e. BadLine 17 head_column lines.old.rest.now lines.old.line (file_told e)) }
{
    let line = lines.line();
    let Frame::RoundHead(body) = lines.next_frame()? else {
        return Err(FileFault::Misplaced { line });
    };
    let [banks, settle, dwells] = read_fields(body, line, &HEAD)?;
    Ok(Head {
        banks: banks as u8,
        settle: settle as u16,
        dwells: dwells as u16,
    })
}

// Reads the line of bank i.
fn read_bank(lines: &mut Unread, i: u32) -> Result<Bank, FileFault>
    ensures { MatchResult result (λ b. BankWithin b × (lines.old.rest.now ≡ bank_line i b ++ lines.new.rest.now) × (lines.new.line ≡ lines.old.line + 1)) (λ e. BadLine 18 (bank_column i) lines.old.rest.now lines.old.line (file_told e)) }
{
    let line = lines.line();
    let Frame::RoundBank(body) = lines.next_frame()? else {
        return Err(FileFault::Misplaced { line });
    };
    let number = Field {
        place: 0,
        width: 2,
        low: i,
        high: i,
    };
    let panel = Field {
        place: 2,
        width: 2,
        low: 0,
        high: MOST_PANEL as u32,
    };
    let dwell = Field {
        place: 4,
        width: 4,
        low: 1,
        high: MOST_DWELL as u32,
    };
    let gap = Field {
        place: 8,
        width: 4,
        low: 1,
        high: MOST_GAP as u32,
    };
    let [_, panel, dwell, gap] = read_fields(body, line, &[number, panel, dwell, gap])?;
    Ok(Bank {
        panel: panel as u8,
        dwell: dwell as u16,
        gap: gap as u16,
    })
}

// Reads the lines of all banks, which come behind the head line.
fn read_banks(lines: &mut Unread, head: Head) -> Result<[Bank; MOST_BANKS], FileFault>
    requires { lines.old.line ≡ 2 }
    ensures { MatchResult result (λ bs. BanksRead lines.old.rest.now bs head.banks lines.new.rest.now × (lines.new.line ≡ 2 + head.banks)) (λ e. BankFault lines.old.rest.now head.banks (file_told e)) }
{
    let mut banks = [Bank::default(); MOST_BANKS];
    for (i, bank) in banks[..head.banks as usize].iter_mut().enumerate() {
        *bank = read_bank(lines, i as u32)?;
    }
    Ok(banks)
}

// Reads the front of a stored round.
pub fn read_front(bytes: &[u8]) -> Result<RoundFront<'_>, FileFault>
    ensures { MatchResult result (λ f. TableRead bytes.now f.table f.dwells f.lines.rest.now × (f.lines.line ≡ 2 + f.table.count)) (λ e. TableFault bytes.now (file_told e)) }
{
    let mut lines = Unread::of(bytes)?;
    let head = read_head(&mut lines)?;
    let banks = read_banks(&mut lines, head)?;
    let table = BankTable::of(head.banks, head.settle, banks);
    Ok(RoundFront {
        table,
        dwells: head.dwells,
        lines,
    })
}

// The table of a stored round, the number of dwells that its head announces, and where the bytes after the table begin.
pub fn read_table(bytes: &[u8]) -> Result<StoredTable, FileFault>
    ensures { MatchResult result (λ p. (p.end ≤ length bytes.now) × TableRead bytes.now p.table p.dwells (drop p.end bytes.now)) (λ e. TableFault bytes.now (file_told e)) }
{
    let front = read_front(bytes)?;
    Ok(StoredTable {
        table: front.table,
        dwells: front.dwells,
        end: bytes.len() - front.lines.rest().len(),
    })
}
