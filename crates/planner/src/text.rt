// What the planner prints.
ghost use Rattle.std.specs.Prelude.{◌≡◌, ◌≤◌, true, length, is_ok};
ghost use Rattle.planner.specs.Answers.{PlanWritten, most_text};

use crate::answer::answer_sheet;
use listings::{TooShort, write_answer, write_refusal};
use sheets::read_sheet;

// Reads a sheet, searches for a round, and writes the listing of the answer, or that of the refusal; where there is no room, nothing.
pub fn plan_text(bytes: &[u8], out: &mut [u8]) -> Result<usize, TooShort>
    ensures written { PlanWritten bytes.now out.old out.new result }
    ensures enough { most_text ≤ length out.old → is_ok result ≡ true }
{
    match read_sheet(bytes) {
        Ok(sheet) => {
            let answer = answer_sheet(&sheet);
            write_answer(answer.finding.as_ref(), answer.visits, out)
        }
        Err(fault) => write_refusal(&fault.told(), out),
    }
}
