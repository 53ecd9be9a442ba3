// Reads a sheet.
ghost use Rattle.std.specs.Prelude.{◌≡◌, is_ok, Decides, MatchResult};
ghost use Rattle.sheets.specs.Faults.{sheet_told};
ghost use Rattle.sheets.specs.SheetText.{sheet_text, SomeSheet, FirstFault, OnlySheet, OnlyFault};

use crate::faults::SheetFault;
use crate::lines::{read_banks, read_head};
use crate::list::read_list;
use crate::sheet::Sheet;
use frames::Unread;

// Reads a sheet from the bytes of a file.
pub fn read_sheet(bytes: &[u8]) -> Result<Sheet, SheetFault>
    ensures reply { MatchResult result (λ s. bytes.now ≡ sheet_text s) (λ e. FirstFault bytes.now (sheet_told e)) }
    ensures exact { Decides (is_ok result) (SomeSheet bytes.now) }
    ensures only { MatchResult result (λ s. OnlySheet bytes.now s) (λ e. OnlyFault bytes.now (sheet_told e)) }
{
    let mut lines = Unread::of(bytes)?;
    let head = read_head(&mut lines)?;
    let panels = read_banks(&mut lines, head)?;
    let list = read_list(&mut lines, head)?;
    Ok(Sheet::of(head, panels, list))
}
