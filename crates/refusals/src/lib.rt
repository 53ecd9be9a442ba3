// What a refusal tells: a number for the kind of fault, and the values that say where it is.
#![tactic(auto)]

ghost use Rattle.std.specs.Prelude.{◌≡◌};
ghost use Rattle.refusals.specs.Numbers.{at_place, at_move, of_length};

use std::fmt;

// What refusals are told of, by their numbers.
#[derive(Clone, Copy, PartialEq, Eq, Debug)]
pub enum RefusalNumber {
    NoDigit = 1,
    NoFrame = 2,
    OutOfPlace = 3,
    BadField = 4,
    RepeatedFeeder = 5,
    BareBank = 6,
    BadEnd = 7,
    NoRound = 8,
    TooShort = 9,
    NoMove = 10,
    NotLawful = 11,
}

// A value that a refusal does not have is 0: only files have lines and columns, only lists of moves have laps and positions,
// and only buffers have a length that is needed. The number stays a number: a frame prints it, programs in other languages are
// given it, and a caller may tell one of its own.
#[derive(Clone, Copy, PartialEq, Eq, Debug)]
pub struct Refusal {
    pub number: u8,
    pub line: u32,
    pub column: u32,
    pub lap: u32,
    pub position: usize,
    pub length: usize,
}

impl Refusal {
    // A refusal of a file, by line and column.
    pub fn in_file(number: u8, line: u32, column: u32) -> Refusal
        ensures { result ≡ at_place number line column }
    {
        Refusal {
            number,
            line,
            column,
            lap: 0,
            position: 0,
            length: 0,
        }
    }

    // A refusal of a list of moves, by lap and position.
    pub fn in_list(number: u8, lap: u32, position: usize) -> Refusal
        ensures { result ≡ at_move number lap position }
    {
        Refusal {
            number,
            line: 0,
            column: 0,
            lap,
            position,
            length: 0,
        }
    }

    // A refusal of a buffer, by the length that is needed.
    pub fn of_length(number: u8, length: usize) -> Refusal
        ensures { result ≡ of_length number length }
    {
        let mut refusal = Refusal::in_file(number, 0, 0);
        refusal.length = length;
        refusal
    }
}

// The frame of a refusal of a file: 1F, number, line, column.
impl fmt::Display for Refusal {
    fn fmt<W: fmt::Write>(&self, f: &mut fmt::Formatter<W>) -> fmt::Result {
        write!(
            f,
            "1F{:02X}{:08X}{:08X}",
            self.number, self.line, self.column
        )
    }
}
