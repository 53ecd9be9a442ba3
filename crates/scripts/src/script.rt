// Reads a script: a sheet, the number of rows, and calls.
ghost use Rattle.std.specs.Prelude.{◌≤◌, length, IfOk};

use crate::lines::{Lines, closed, decimal};
use banks::BankTable;
use sheets::{SheetFault, read_sheet};
use std::alloc::{AllocError, Global};
use thiserror::Error;

// The limits of the numbers of a script.
const MOST_ROWS: u64 = 100000;

const MOST_VISITS: u64 = 4294967295;

const MOST_BUFFER: u64 = 70000;

// The last line of a sheet begins with this.
const SHEET_END: &[u8] = b"04";

// What a line of a script asks for.
#[derive(Clone, Copy)]
pub(crate) enum Step {
    Grant(u32),
    Verdict,
    Copy(usize),
    Wipe,
    // Later grants bring the reader of this table.
    Rig(BankTable),
}

// The table of the first sheet, the number of rows, and what the lines ask for.
#[derive(Drop)]
pub(crate) struct Script {
    pub(crate) table: BankTable,
    pub(crate) rows: usize,
    pub(crate) steps: Vec<Step>,
}

// What is wrong with a line.
#[derive(Debug, Drop, Error)]
pub(crate) enum LineFault {
    #[error("a line 'rows N' is due here, with N at most 100000.")]
    NoRows,
    #[error("no call stands here.")]
    NoCall,
    #[error("the number is too large.")]
    TooLarge,
    #[error("the sheet behind 'rig' cannot be read.")]
    BadSheet,
    #[error("the sheet behind 'rig' is of another kind.")]
    OtherKind,
}

// Why a script cannot be read.
#[derive(Debug, Drop, Error)]
pub(crate) enum ScriptFault {
    #[error("no memory")]
    Memory(#[from(alloc)] AllocError),
    #[error("{told}\n{sentence}", told = .0.told(), sentence = .0)]
    Sheet(SheetFault),
    #[error("line {line}: {what}")]
    Line { line: usize, what: LineFault },
}

// The number that these digits write, if it is at most so large.
fn number_within(digits: &str, most: u64) -> Result<u64, LineFault>
    ensures { IfOk result (λ n. n ≤ most) }
{
    let number = decimal(digits).ok_or(LineFault::NoCall)?;
    if number > most {
        return Err(LineFault::TooLarge);
    }
    Ok(number)
}

// What a line without its closing byte asks for; `rig` is read elsewhere.
fn step_of(text: &str) -> Result<Step, LineFault> {
    if let Some(digits) = text.strip_prefix("grant ") {
        return Ok(Step::Grant(number_within(digits, MOST_VISITS)? as u32));
    }
    if let Some(digits) = text.strip_prefix("copy ") {
        return Ok(Step::Copy(number_within(digits, MOST_BUFFER)? as usize));
    }
    match text {
        "verdict" => Ok(Step::Verdict),
        "wipe" => Ok(Step::Wipe),
        _ => Err(LineFault::NoCall),
    }
}

// The table of the sheet behind `rig`, which is to settle or not as the first one.
fn rig_of(sheet: &[u8], first: &BankTable) -> Result<Step, LineFault> {
    let sheet = read_sheet(sheet).map_err(|_| LineFault::BadSheet)?;
    let table = BankTable::of_sheet(&sheet);
    if (table.settle() == 0) != (first.settle() == 0) {
        return Err(LineFault::OtherKind);
    }
    Ok(Step::Rig(table))
}

// What a line asks for; the sheet behind `rig` is cut off from the lines behind it.
fn read_step(line: &[u8], lines: &mut Lines, first: &BankTable) -> Result<Step, LineFault>
    ensures { length lines.new.rest.now ≤ length lines.old.rest.now }
{
    match closed(line).ok_or(LineFault::NoCall)? {
        "rig" => rig_of(lines.cut_through(SHEET_END), first),
        text => step_of(text),
    }
}

// What the lines from here on ask for.
fn read_steps(
    heap: Global,
    lines: &mut Lines,
    first: &BankTable,
) -> Result<Vec<Step>, ScriptFault> {
    let mut steps = Vec::new(heap);
    let mut number = lines.number();
    while let Some(line) = lines.cut_line() {
        let step = read_step(line, lines, first);
        steps.push(step.map_err(|what| ScriptFault::Line { line: number, what })?)?;
        number = lines.number();
    }
    Ok(steps)
}

// The number of rows, from the line that tells it.
fn read_rows(lines: &mut Lines) -> Result<usize, LineFault> {
    let text = lines.cut_line().and_then(closed);
    let digits = text.and_then(|text| text.strip_prefix("rows "));
    let rows = number_within(digits.ok_or(LineFault::NoRows)?, MOST_ROWS).map_err(
        |_| LineFault::NoRows,
    )?;
    Ok(rows as usize)
}

// Reads a script.
pub(crate) fn read_script(heap: Global, bytes: &[u8]) -> Result<Script, ScriptFault> {
    let mut lines = Lines::new(bytes);
    let sheet = read_sheet(lines.cut_through(SHEET_END)).map_err(ScriptFault::Sheet)?;
    let table = BankTable::of_sheet(&sheet);
    let line = lines.number();
    let rows = read_rows(&mut lines).map_err(|what| ScriptFault::Line { line, what })?;
    let steps = read_steps(heap, &mut lines, &table)?;
    Ok(Script { table, rows, steps })
}
