// Why a round is not copied.
ghost use Rattle.std.specs.Prelude.{◌≡◌};
ghost use Rattle.search.specs.Uncopied.{told};

use refusals::{Refusal, RefusalNumber};

#[derive(Clone, Copy, PartialEq, Eq, Debug)]
pub enum Uncopied {
    // The verdict is not round.
    NoRound,
    // The buffer is too short for the round: so long it has to be.
    Short { needed: usize },
}

impl Uncopied {
    // The refusal's number and values.
    pub fn told(&self) -> Refusal
        ensures { result ≡ told self.now }
    {
        Refusal::from(*self)
    }
}

impl From<Uncopied> for Refusal {
    ghost from_gives = { λ e r. r ≡ told e };

    fn from(e: Uncopied) -> Refusal {
        match e {
            Uncopied::NoRound => Refusal::of_length(RefusalNumber::NoRound as u8, 0),
            Uncopied::Short { needed } => Refusal::of_length(RefusalNumber::TooShort as u8, needed),
        }
    }
}
