// Reads the lines of a sheet: the head, and the banks.
ghost use Rattle.std.specs.Prelude.{◌≡◌, ◌+◌, ◌≤◌, ◌++◌, MatchResult};
ghost use Rattle.frames.specs.Faults.{file_told};
ghost use Rattle.frames.specs.BadLines.{BadLine};
ghost use Rattle.sheets.specs.Limits.{most_panel};
ghost use Rattle.sheets.specs.SheetLines.{head_line, bank_line, head_column, bank_column, BanksRead, BankFault};

use crate::head::Head;
use crate::limits::{FEWEST_BANKS, MOST_BANKS, MOST_PANEL, MOST_SETTLE};
use frames::{Field, FileFault, Frame, Unread, read_fields};

// The fields of a head line: the number of banks, and the settle time.
const HEAD: [Field; 2] = [
    Field {
        place: 0,
        width: 2,
        low: FEWEST_BANKS as u32,
        high: MOST_BANKS as u32,
    },
    Field {
        place: 2,
        width: 4,
        low: 0,
        high: MOST_SETTLE as u32,
    },
];

// Reads the head line.
pub(crate) fn read_head(lines: &mut Unread) -> Result<Head, FileFault>
    ensures { MatchResult result (λ h. (lines.old.rest.now ≡ head_line h.banks h.settle ++ lines.new.rest.now) × (lines.new.line ≡ lines.old.line + 1)) (λ e. BadLine 1 head_column lines.old.rest.now lines.old.line (file_told e)) }
{
    let line = lines.line();
    let Frame::SheetHead(body) = lines.next_frame()? else {
        return Err(FileFault::Misplaced { line });
    };
    let [banks, settle] = read_fields(body, line, &HEAD)?;
    Ok(Head {
        banks: banks as u8,
        settle: settle as u16,
    })
}

// Reads the line of bank i: its panel.
fn read_bank(lines: &mut Unread, i: u32) -> Result<u8, FileFault>
    ensures { MatchResult result (λ p. (p ≤ most_panel) × (lines.old.rest.now ≡ bank_line i p ++ lines.new.rest.now) × (lines.new.line ≡ lines.old.line + 1)) (λ e. BadLine 2 (bank_column i) lines.old.rest.now lines.old.line (file_told e)) }
{
    let line = lines.line();
    let Frame::SheetBank(body) = lines.next_frame()? else {
        return Err(FileFault::Misplaced { line });
    };
    let number = Field {
        place: 0,
        width: 2,
        low: i,
        high: i,
    };
    let panel = Field {
        place: 2,
        width: 2,
        low: 0,
        high: MOST_PANEL as u32,
    };
    let [_, panel] = read_fields(body, line, &[number, panel])?;
    Ok(panel as u8)
}

// Reads the panels of all banks, whose lines come behind the head line.
pub(crate) fn read_banks(lines: &mut Unread, head: Head) -> Result<[u8; MOST_BANKS], FileFault>
    requires { lines.old.line ≡ 2 }
    ensures { MatchResult result (λ ps. BanksRead lines.old.rest.now ps head.banks lines.new.rest.now × (lines.new.line ≡ 2 + head.banks)) (λ e. BankFault lines.old.rest.now head.banks (file_told e)) }
{
    let mut panels = [0; MOST_BANKS];
    for (i, panel) in panels[..head.banks as usize].iter_mut().enumerate() {
        *panel = read_bank(lines, i as u32)?;
    }
    Ok(panels)
}
