// The frames of a verdict and of a refusal.
ghost use Rattle.std.specs.Prelude.{◌≤◌, length};
ghost use Rattle.listings.specs.Writing.{Put, Wrote};
ghost use Rattle.listings.specs.Texts.{verdict_line, refused_line};

use crate::fields::{Field, put_fields};
use crate::listed::{Listed, Listing, write};
use crate::short::TooShort;
use frames::Kind;
use refusals::Refusal;
use rig::Verdict;

// The bytes of the line of a verdict, and of the line of a refusal.
const VERDICT_LENGTH: usize = 13;

const REFUSED_LENGTH: usize = 21;

// The line of a verdict and its visits.
#[derive(Clone, Copy)]
pub(crate) struct VerdictLine {
    pub(crate) verdict: Verdict,
    pub(crate) visits: u32,
}

impl Listed for VerdictLine {
    ghost text = { λ l. verdict_line l.verdict l.visits };

    fn put(&self, out: &mut [u8]) -> usize {
        put_fields(
            &[
                Field(2, Kind::Verdict as usize),
                Field(2, self.verdict.number() as usize),
                Field(8, self.visits as usize),
            ],
            out,
        )
    }
}

impl Listing for VerdictLine {
    fn needed(&self) -> usize {
        VERDICT_LENGTH
    }
}

// The line of a refusal.
impl Listed for Refusal {
    ghost text = { refused_line };

    fn put(&self, out: &mut [u8]) -> usize {
        put_fields(
            &[
                Field(2, Kind::Refused as usize),
                Field(2, self.number as usize),
                Field(8, self.line as usize),
                Field(8, self.column as usize),
            ],
            out,
        )
    }
}

impl Listing for Refusal {
    fn needed(&self) -> usize {
        REFUSED_LENGTH
    }
}

// Writes the line of a verdict and its visits; where there is no room, nothing.
pub fn write_verdict(verdict: Verdict, visits: u32, out: &mut [u8]) -> Result<usize, TooShort>
    ensures { Wrote (verdict_line verdict visits) out.old out.new result }
{
    write(&VerdictLine { verdict, visits }, out)
}

// Writes the line of a refusal; where there is no room, nothing.
pub fn write_refusal(refusal: &Refusal, out: &mut [u8]) -> Result<usize, TooShort>
    ensures { Wrote (refused_line refusal.now) out.old out.new result }
{
    write(refusal, out)
}
