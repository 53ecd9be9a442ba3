// The faults of a sheet: those of any file, and those of its feeders.
ghost use Rattle.std.specs.Prelude.{◌≡◌};
ghost use Rattle.sheets.specs.declared.faults.SheetFault.TheVariants.{File};
ghost use Rattle.sheets.specs.Faults.{sheet_told};

use frames::FileFault;
use refusals::{Refusal, RefusalNumber};
use std::error::Error;
use std::fmt;

// Why a file is refused as a sheet. Lines count from 1.
#[derive(Clone, Copy, PartialEq, Eq, Debug)]
pub enum SheetFault {
    File(FileFault),
    // The feeder number of this line stands on an earlier line too.
    Repeated { line: u32 },
    // The line counts the feeders, and a bank has none.
    NoFeeder { line: u32 },
}

impl From<FileFault> for SheetFault {
    ghost from_gives = { λ e f. f ≡ File e };

    fn from(value: FileFault) -> SheetFault {
        SheetFault::File(value)
    }
}

impl From<SheetFault> for Refusal {
    ghost from_gives = { λ e r. r ≡ sheet_told e };

    fn from(fault: SheetFault) -> Refusal {
        match fault {
            SheetFault::File(fault) => Refusal::from(fault),
            SheetFault::Repeated { line } => {
                Refusal::in_file(RefusalNumber::RepeatedFeeder as u8, line, 3)
            }
            SheetFault::NoFeeder { line } => {
                Refusal::in_file(RefusalNumber::BareBank as u8, line, 1)
            }
        }
    }
}

impl SheetFault {
    // The refusal's number and values.
    pub fn told(&self) -> Refusal
        ensures { result ≡ sheet_told self.now }
    {
        Refusal::from(*self)
    }
}

// A sentence that says what is wrong where.
impl fmt::Display for SheetFault {
    fn fmt<W: fmt::Write>(&self, f: &mut fmt::Formatter<W>) -> fmt::Result {
        let told = self.told();
        let line = told.line;
        let column = told.column;
        match *self {
            SheetFault::File(FileFault::AfterEnd { .. }) => write!(
                f,
                "Line {line}: something stands after the end of the file."
            ),
            SheetFault::File(fault) => write!(f, "{fault}"),
            SheetFault::Repeated { .. } => write!(
                f,
                "Line {line}, column {column}: the feeder number stands on an earlier line too."
            ),
            SheetFault::NoFeeder { .. } => write!(f, "Line {line}: a bank has no feeder."),
        }
    }
}

impl Error for SheetFault {}
