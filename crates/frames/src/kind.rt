// The kinds of frames, and how many digits come after each.
ghost use Rattle.std.specs.Prelude.{◌≡◌, ◌<◌, take};
ghost use Rattle.frames.specs.Digits.{AllDigits, value};
ghost use Rattle.frames.specs.Frames.{digits_after};
ghost use Rattle.frames.specs.Kinds.{Decodes, number_of};

use crate::digits::number;

// How many digits come after each kind; after a part of a round, two for its count, and two more for each of its dwells.
const SHEET_HEAD: usize = 6;

const SHEET_BANK: usize = 4;

const FEEDER: usize = 14;

const FEEDER_COUNT: usize = 4;

const VERDICT: usize = 10;

const ROUND_HEAD: usize = 10;

const ROUND_BANK: usize = 12;

const REFUSED: usize = 18;

// The kinds, by their numbers.
#[derive(Clone, Copy, PartialEq, Eq, Debug)]
pub enum Kind {
    SheetHead = 0x01,
    SheetBank = 0x02,
    Feeder = 0x03,
    FeederCount = 0x04,
    Verdict = 0x10,
    RoundHead = 0x11,
    RoundBank = 0x12,
    RoundPart = 0x13,
    Refused = 0x1F,
}

// A number that is no kind's.
#[derive(Clone, Copy, PartialEq, Eq, Debug)]
pub struct UnknownKind(pub u32);

impl TryFrom<u32> for Kind {
    type Error = UnknownKind;

    ghost try_from_gives = { Decodes };

    fn try_from(number: u32) -> Result<Kind, UnknownKind> {
        match number {
            0x01 => Ok(Kind::SheetHead),
            0x02 => Ok(Kind::SheetBank),
            0x03 => Ok(Kind::Feeder),
            0x04 => Ok(Kind::FeederCount),
            0x10 => Ok(Kind::Verdict),
            0x11 => Ok(Kind::RoundHead),
            0x12 => Ok(Kind::RoundBank),
            0x13 => Ok(Kind::RoundPart),
            0x1F => Ok(Kind::Refused),
            _ => Err(UnknownKind(number)),
        }
    }
}

// The number that at most the first two digits write.
fn first_two(digits: &[u8]) -> usize
    requires { AllDigits digits.now }
    ensures value { result ≡ value (take 2 digits.now) }
    ensures small { result < 256 }
{
    number(&digits[..digits.len().min(2)]) as usize
}

impl Kind {
    #[tactic(auto, unfolding(crate::specs::Frames::digits_after))]
    // How many digits are to come after the kind, of which these are the first.
    pub(crate) fn digits_after(self, body: &[u8]) -> usize
        requires { AllDigits body.now }
        ensures { result ≡ digits_after (number_of self) body.now }
    {
        match self {
            Kind::SheetHead => SHEET_HEAD,
            Kind::SheetBank => SHEET_BANK,
            Kind::Feeder => FEEDER,
            Kind::FeederCount => FEEDER_COUNT,
            Kind::Verdict => VERDICT,
            Kind::RoundHead => ROUND_HEAD,
            Kind::RoundBank => ROUND_BANK,
            Kind::RoundPart => 2 + 2 * first_two(body),
            Kind::Refused => REFUSED,
        }
    }
}
