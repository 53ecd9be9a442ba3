// What a planner prints: the line of the verdict, and behind the verdict that there is a round the stored round.
ghost use Rattle.std.specs.Prelude.{◌++◌, take, drop, IfOk};
ghost use Rattle.rounds.specs.Stored.{round_text};
ghost use Rattle.listings.specs.Writing.{Wrote};
ghost use Rattle.listings.specs.Texts.{verdict_line};
ghost use Rattle.listings.specs.Answers.{answer_text, StandsBehind};
ghost use Rattle.listings.specs.Findings.{finding_copied};

use crate::finding::Finding;
use crate::frame::VerdictLine;
use crate::lines::StoredRound;
use crate::listed::{Listed, Listing, write};
use crate::short::TooShort;
use rounds::RoundRecord;

// The line of a verdict with a stored round behind it.
#[derive(Clone, Copy)]
struct Found<'a> {
    line: VerdictLine,
    round: StoredRound<'a>,
}

impl Listed for Found<'_> {
    ghost text = { λ f. verdict_line f.line.verdict f.line.visits ++ round_text f.round.table f.round.list.now };

    fn put(&self, out: &mut [u8]) -> usize {
        let at = self.line.put(out);
        at + self.round.put(&mut out[at..])
    }
}

impl Listing for Found<'_> {
    fn needed(&self) -> usize {
        self.line.needed() + self.round.needed()
    }
}

// Writes the line of the verdict and, if it says that there is a round, the stored round behind it;
// where there is no room for all of this, nothing.
pub fn write_answer(
    finding: Finding<&RoundRecord>,
    visits: u32,
    out: &mut [u8],
) -> Result<usize, TooShort>
    ensures reply { Wrote (answer_text (finding_copied finding.entry) visits) out.old out.new result }
    ensures read { IfOk result (λ n. StandsBehind (finding_copied finding.entry) (drop 13 (take n out.new))) }
{
    let line = VerdictLine {
        verdict: finding.verdict(),
        visits,
    };
    match finding {
        Finding::Round(round) => {
            let round = StoredRound::of(round);
            write(&Found { line, round }, out)
        }
        _ => write(&line, out),
    }
}
