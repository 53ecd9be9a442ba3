// What a search for a round has come to.
ghost use Rattle.std.specs.Prelude.{◌≡◌};
ghost use Rattle.listings.specs.Findings.{verdict_of, finding_of, finding_copied};

use rig::Verdict;

// The verdict, and with verdict round what is known of the round.
#[derive(Clone, Copy, Drop)]
pub enum Finding<R> {
    NoRound,
    Round(R),
    Open,
    Full,
}

impl<R> Finding<R> {
    // The finding of this verdict. With any other verdict than round the round is not looked at.
    pub fn of(verdict: Verdict, round: R) -> Finding<R>
    where
        R: Drop,
        ensures { result ≡ finding_of verdict round }
    {
        match verdict {
            Verdict::NoRound => Finding::NoRound,
            Verdict::Round => Finding::Round(round),
            Verdict::Open => Finding::Open,
            Verdict::Full => Finding::Full,
        }
    }

    // The verdict alone.
    pub fn verdict(&self) -> Verdict
        ensures { result ≡ verdict_of self.now }
    {
        match self {
            Finding::NoRound => Verdict::NoRound,
            Finding::Round(_) => Verdict::Round,
            Finding::Open => Verdict::Open,
            Finding::Full => Verdict::Full,
        }
    }

    // The same, with the round lent.
    pub fn as_ref(&self) -> Finding<&R>
        ensures { finding_copied result ≡ self.now }
    {
        match self {
            Finding::NoRound => Finding::NoRound,
            Finding::Round(round) => Finding::Round(round),
            Finding::Open => Finding::Open,
            Finding::Full => Finding::Full,
        }
    }
}
