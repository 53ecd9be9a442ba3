// A buffer that is too short.
ghost use Rattle.std.specs.Prelude.{◌≡◌};
ghost use Rattle.refusals.specs.Numbers.{too_short};

use refusals::{Refusal, RefusalNumber};

// Nothing was written; so many bytes are needed.
#[derive(Clone, Copy, PartialEq, Eq, Debug)]
pub struct TooShort {
    pub needed: usize,
}

impl From<TooShort> for Refusal {
    ghost from_gives = { λ short refusal. refusal ≡ too_short short.needed };

    fn from(short: TooShort) -> Refusal {
        Refusal::of_length(RefusalNumber::TooShort as u8, short.needed)
    }
}

impl TooShort {
    // The refusal's number and values.
    pub fn told(&self) -> Refusal
        ensures { result ≡ too_short self.now.needed }
    {
        (*self).into()
    }
}
