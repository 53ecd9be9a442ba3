// What a search for a round has come to.
ghost use Rattle.std.specs.Prelude.{◌≡◌};
ghost use Rattle.rig.specs.Verdicts.{verdict_number};

#[derive(Clone, Copy, PartialEq, Eq, Debug)]
pub enum Verdict {
    // No round is lawful for ever.
    NoRound = 0,
    // A round was found.
    Round = 1,
    // The search goes on.
    Open = 2,
    // No room is left to search in.
    Full = 3,
}

impl Verdict {
    // The number that stands for the verdict in a frame.
    pub fn number(&self) -> u8
        ensures { result ≡ verdict_number self.now }
    {
        *self as u8
    }
}
