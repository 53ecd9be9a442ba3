// The kinds of cases, and the heads that tell them.
ghost use Rattle.std.specs.Prelude.{◌==◌, drop};
ghost use Rattle.batches.specs.Batches.{decimal};

use batches::{Head, number};
use frames::LINE_END;

#[derive(Clone, Copy, PartialEq, Eq, Debug)]
pub enum Kind {
    // A file as a stored round.
    Round,
    // A file as a feeder sheet.
    Sheet,
    // A file as a sheet for the planner.
    Plan,
    // A file as a script.
    Script,
    // The lines of a table, then ages and untried banks.
    Ages,
    // The lines of a table, then a list.
    Lists,
}

// A letter that tells no kind.
#[derive(Clone, Copy, Debug)]
pub struct NoKind;

impl TryFrom<u8> for Kind {
    type Error = NoKind;

    fn try_from(letter: u8) -> Result<Kind, NoKind> {
        match letter {
            b'R' => Ok(Kind::Round),
            b'S' => Ok(Kind::Sheet),
            b'P' => Ok(Kind::Plan),
            b'T' => Ok(Kind::Script),
            b'A' => Ok(Kind::Ages),
            b'L' => Ok(Kind::Lists),
            _ => Err(NoKind),
        }
    }
}

// A line with the letter of the kind first. What has no letter, or the letter of no kind, is answered as a list.
impl Head for Kind {
    ghost ends = { λ b. b == 10 };

    ghost size = { λ text. decimal (drop 1 text) };

    fn is_end(byte: u8) -> bool {
        byte == LINE_END
    }

    fn read(text: &[u8]) -> (Kind, usize) {
        match text.split_first() {
            Some((letter, digits)) => (
                Kind::try_from(*letter).unwrap_or(Kind::Lists),
                number(digits),
            ),
            None => (Kind::Lists, 0),
        }
    }
}
