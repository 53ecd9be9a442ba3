// Frames: a line is a kind of two digits, and as many digits after it as that kind has.
ghost use Rattle.std.specs.Prelude.{◌≡◌, ◌++◌, MatchOption, MatchResult};
ghost use Rattle.frames.specs.declared.frame.FrameFault.TheVariants.{Digit};
ghost use Rattle.frames.specs.Digits.{AllDigits, numeral};
ghost use Rattle.frames.specs.Frames.{kind_of, body_of, IsFrame, FrameFails, NoFrame};
ghost use Rattle.frames.specs.Kinds.{number_of};
ghost use Rattle.frames.specs.Faults.{frame_told};

use crate::digits::{DigitFault, check_digits, number};
use crate::kind::Kind;
use refusals::{Refusal, RefusalNumber};

// How many digits a kind has.
const KIND: usize = 2;

// A frame, with the digits after its kind.
#[derive(Clone, Copy, Debug)]
pub enum Frame<'a> {
    // 01: banks 2, settle 4.
    SheetHead(&'a [u8]),
    // 02: bank 2, panel 2.
    SheetBank(&'a [u8]),
    // 03: feeder 4, bank 2, reading 4, swap 4.
    Feeder(&'a [u8]),
    // 04: count 4.
    FeederCount(&'a [u8]),
    // 10: verdict 2, visits 8.
    Verdict(&'a [u8]),
    // 11: banks 2, settle 4, dwells 4.
    RoundHead(&'a [u8]),
    // 12: bank 2, panel 2, dwell 4, gap 4.
    RoundBank(&'a [u8]),
    // 13: count 2, and then 2 for each of so many dwells.
    RoundPart(&'a [u8]),
    // 1F: number 2, line 8, column 8.
    Refused(&'a [u8]),
}

// Why the bytes of a line are no frame.
#[derive(Clone, Copy, PartialEq, Eq, Debug)]
pub enum FrameFault {
    Digit(DigitFault),
    Shape { line: u32 },
}

impl From<DigitFault> for FrameFault {
    ghost from_gives = { λ d e. e ≡ Digit d };

    fn from(value: DigitFault) -> FrameFault {
        FrameFault::Digit(value)
    }
}

impl From<FrameFault> for Refusal {
    ghost from_gives = { λ e r. r ≡ frame_told e };

    fn from(fault: FrameFault) -> Refusal {
        match fault {
            FrameFault::Digit(fault) => Refusal::from(fault),
            FrameFault::Shape { line } => Refusal::in_file(RefusalNumber::NoFrame as u8, line, 1),
        }
    }
}

impl FrameFault {
    // The refusal's number and values.
    pub fn told(&self) -> Refusal
        ensures { result ≡ frame_told self.now }
    {
        Refusal::from(*self)
    }
}

// The frame of a kind, with these digits after it.
fn framed(kind: Kind, body: &[u8]) -> Frame<'_>
    ensures kind { kind_of result ≡ number_of kind }
    ensures body { body_of result ≡ body.now }
{
    match kind {
        Kind::SheetHead => Frame::SheetHead(body),
        Kind::SheetBank => Frame::SheetBank(body),
        Kind::Feeder => Frame::Feeder(body),
        Kind::FeederCount => Frame::FeederCount(body),
        Kind::Verdict => Frame::Verdict(body),
        Kind::RoundHead => Frame::RoundHead(body),
        Kind::RoundBank => Frame::RoundBank(body),
        Kind::RoundPart => Frame::RoundPart(body),
        Kind::Refused => Frame::Refused(body),
    }
}

// The kind that the first two digits of a line are, and the digits after it.
fn split_kind(bytes: &[u8]) -> Option<(Kind, &[u8])>
    requires { AllDigits bytes.now }
    ensures { MatchOption result (NoFrame bytes.now) (λ p. AllDigits p.1.now × (bytes.now ≡ numeral 2 (number_of p.0) ++ p.1.now)) }
{
    let (two, body) = bytes.split_at_checked(KIND)?;
    let kind = Kind::try_from(number(two)).ok()?;
    Some((kind, body))
}

// The frame that the bytes of a line are. Digits are tested first, then the kind and the number of digits.
pub fn cut_frame(bytes: &[u8], line: u32) -> Result<Frame<'_>, FrameFault>
    ensures { MatchResult result (λ f. IsFrame bytes.now f) (λ e. FrameFails bytes.now line e) }
{
    check_digits(bytes, line)?;
    let shape = FrameFault::Shape { line };
    let (kind, body) = split_kind(bytes).ok_or(shape)?;
    if kind.digits_after(body) != body.len() {
        return Err(shape);
    }
    Ok(framed(kind, body))
}
