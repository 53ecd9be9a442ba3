// The faults of a file, and the next frame of one.
ghost use Rattle.std.specs.Prelude.{◌≡◌, MatchResult};
ghost use Rattle.frames.specs.declared.faults.FileFault.TheVariants.{Frame as InFrame};
ghost use Rattle.frames.specs.Frames.{FrameRead, NextFails};
ghost use Rattle.frames.specs.Faults.{file_told};

use crate::frame::{Frame, FrameFault, cut_frame};
use crate::lines::split_line;
use refusals::{Refusal, RefusalNumber};
use std::error::Error;
use std::fmt;

// Why a file is refused. Lines and columns count from 1.
#[derive(Clone, Copy, PartialEq, Eq, Debug)]
pub enum FileFault {
    Frame(FrameFault),
    // There are more bytes than a file may have.
    TooLong,
    // The line is lacking, or nothing closes it.
    Unclosed {
        line: u32,
    },
    // The line stands after the end.
    AfterEnd {
        line: u32,
    },
    // A frame of another kind is due at this line.
    Misplaced {
        line: u32,
    },
    // The field that begins at this column is outside its limits.
    Field {
        line: u32,
        column: u32,
    },
    // The stored dwells cannot be repeated for ever: the line is the last one.
    Unlawful {
        line: u32,
        lap: u32,
        position: usize,
    },
}

impl From<FrameFault> for FileFault {
    ghost from_gives = { λ e f. f ≡ InFrame e };

    fn from(value: FrameFault) -> FileFault {
        FileFault::Frame(value)
    }
}

impl From<FileFault> for Refusal {
    ghost from_gives = { λ e r. r ≡ file_told e };

    fn from(fault: FileFault) -> Refusal {
        match fault {
            FileFault::Frame(fault) => Refusal::from(fault),
            FileFault::TooLong => Refusal::in_file(RefusalNumber::BadEnd as u8, 1, 1),
            FileFault::Unclosed { line } | FileFault::AfterEnd { line } => {
                Refusal::in_file(RefusalNumber::BadEnd as u8, line, 1)
            }
            FileFault::Misplaced { line } => {
                Refusal::in_file(RefusalNumber::OutOfPlace as u8, line, 1)
            }
            FileFault::Field { line, column } => {
                Refusal::in_file(RefusalNumber::BadField as u8, line, column)
            }
            FileFault::Unlawful {
                line,
                lap,
                position,
            } => Refusal {
                line,
                column: 1,
                ..Refusal::in_list(RefusalNumber::NotLawful as u8, lap, position)
            },
        }
    }
}

impl FileFault {
    // The refusal's number and values.
    pub fn told(&self) -> Refusal
        ensures { result ≡ file_told self.now }
    {
        Refusal::from(*self)
    }
}

// The frame of the next line, and what comes after that line.
pub fn next_frame(rest: &[u8], line: u32) -> Result<(Frame<'_>, &[u8]), FileFault>
    ensures { MatchResult result (λ p. FrameRead rest.now p.0 p.1.now) (λ e. NextFails rest.now line e) }
{
    let (bytes, after) = split_line(rest).ok_or(FileFault::Unclosed { line })?;
    Ok((cut_frame(bytes, line)?, after))
}

// A sentence that says what is wrong where.
impl fmt::Display for FileFault {
    fn fmt<W: fmt::Write>(&self, f: &mut fmt::Formatter<W>) -> fmt::Result {
        let told = self.told();
        let line = told.line;
        let column = told.column;
        match *self {
            FileFault::TooLong => write!(f, "The file is longer than 65,536 bytes."),
            FileFault::Unclosed { .. } => write!(
                f,
                "Line {line}: the line is lacking, or it is not closed by byte 0A."
            ),
            FileFault::AfterEnd { .. } => write!(
                f,
                "Line {line}: something stands after the end of the round."
            ),
            FileFault::Misplaced { .. } => write!(
                f,
                "Line {line}: a frame of another kind is due here."
            ),
            FileFault::Field { .. } => write!(
                f,
                "Line {line}, column {column}: the field is outside its limits."
            ),
            FileFault::Unlawful { lap, position, .. } => {
                write!(
                    f,
                    "Line {line}: the round is not kept for ever: the dwell at position {position} of lap {lap} makes a bank wait longer than its gap."
                )
            }
            FileFault::Frame(FrameFault::Digit(_)) => {
                write!(
                    f,
                    "Line {line}, column {column}: the byte is no upper-case hexadecimal digit."
                )
            }
            FileFault::Frame(FrameFault::Shape { .. }) => {
                write!(
                    f,
                    "Line {line}: the line is no frame: its kind is unknown, or its number of digits is not that of its kind."
                )
            }
        }
    }
}

impl Error for FileFault {}
