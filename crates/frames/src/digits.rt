// Digits: upper-case hexadecimal, most significant digit first.
ghost use Rattle.std.specs.Prelude.{◌≡◌, ◌<◌, ◌≤◌, length, MatchOption, MatchResult};
ghost use Rattle.frames.specs.Digits.{digit_value, AllDigits, IsDigit, Writes, column_of};
ghost use Rattle.frames.specs.Frames.{NoDigitIn};
ghost use Rattle.frames.specs.Faults.{digit_told};

use refusals::{Refusal, RefusalNumber};

// The most digits that a field has.
pub const MOST_DIGITS: usize = 8;

// What `digit_value` gives for a byte that is no digit: a number, since docs/FORMATS.md gives the values
// of all 256 bytes as a table; `digit` has an `Option`.
pub const NO_DIGIT: u8 = 16;

// What each byte stands for.
const DIGIT_VALUES: [u8; 256] = [
    16, 16, 16, 16, 16, 16, 16, 16, 16, 16, 16, 16, 16, 16, 16, 16, 16, 16, 16, 16, 16, 16, 16, 16,
    16, 16, 16, 16, 16, 16, 16, 16, 16, 16, 16, 16, 16, 16, 16, 16, 16, 16, 16, 16, 16, 16, 16, 16,
    0, 1, 2, 3, 4, 5, 6, 7, 8, 9, 16, 16, 16, 16, 16, 16, 16, 10, 11, 12, 13, 14, 15, 16, 16, 16,
    16, 16, 16, 16, 16, 16, 16, 16, 16, 16, 16, 16, 16, 16, 16, 16, 16, 16, 16, 16, 16, 16, 16, 16,
    16, 16, 16, 16, 16, 16, 16, 16, 16, 16, 16, 16, 16, 16, 16, 16, 16, 16, 16, 16, 16, 16, 16, 16,
    16, 16, 16, 16, 16, 16, 16, 16, 16, 16, 16, 16, 16, 16, 16, 16, 16, 16, 16, 16, 16, 16, 16, 16,
    16, 16, 16, 16, 16, 16, 16, 16, 16, 16, 16, 16, 16, 16, 16, 16, 16, 16, 16, 16, 16, 16, 16, 16,
    16, 16, 16, 16, 16, 16, 16, 16, 16, 16, 16, 16, 16, 16, 16, 16, 16, 16, 16, 16, 16, 16, 16, 16,
    16, 16, 16, 16, 16, 16, 16, 16, 16, 16, 16, 16, 16, 16, 16, 16, 16, 16, 16, 16, 16, 16, 16, 16,
    16, 16, 16, 16, 16, 16, 16, 16, 16, 16, 16, 16, 16, 16, 16, 16, 16, 16, 16, 16, 16, 16, 16, 16,
    16, 16, 16, 16, 16, 16, 16, 16, 16, 16, 16, 16, 16, 16,
];

// A byte that is no digit. Lines and columns count from 1.
#[derive(Clone, Copy, PartialEq, Eq, Debug)]
pub struct DigitFault {
    pub line: u32,
    pub column: u32,
}

impl From<DigitFault> for Refusal {
    ghost from_gives = { λ d r. r ≡ digit_told d };

    fn from(fault: DigitFault) -> Refusal {
        Refusal::in_file(RefusalNumber::NoDigit as u8, fault.line, fault.column)
    }
}

impl DigitFault {
    // The refusal's number and values.
    pub fn told(&self) -> Refusal
        ensures { result ≡ digit_told self.now }
    {
        Refusal::from(*self)
    }
}

// What a byte stands for; 16 for a byte that is no digit.
pub fn digit_value(b: u8) -> u8
    ensures { result ≡ digit_value b }
{
    DIGIT_VALUES[b as usize]
}

// The digit that a byte is, if it is one.
fn digit(b: u8) -> Option<u8>
    ensures { MatchOption result (IsDigit b → ⊥) (λ v. (v < 16) × (v ≡ digit_value b)) }
{
    let value = digit_value(b);
    if value >= NO_DIGIT { None } else { Some(value) }
}

// The column of the byte at place k.
fn column(k: usize) -> u32
    ensures { result ≡ column_of k }
{
    u32::try_from(k).map_or(u32::MAX, |k| k.saturating_add(1))
}

// Accepts bytes that are all digits; else tells of the first that is none.
pub fn check_digits(bytes: &[u8], line: u32) -> Result<(), DigitFault>
    ensures { MatchResult result (λ _. AllDigits bytes.now) (λ d. NoDigitIn bytes.now line d) }
{
    match bytes.iter().position(|b| digit(*b).is_none()) {
        Some(k) => Err(DigitFault {
            line,
            column: column(k),
        }),
        None => Ok(()),
    }
}

// The number that at most 8 digits write.
pub fn read_number(digits: &[u8]) -> Option<u32>
    ensures { MatchOption result (length digits.now ≤ 8 → AllDigits digits.now → ⊥) (λ n. (length digits.now ≤ 8) × AllDigits digits.now × Writes digits.now n) }
{
    if digits.len() > MOST_DIGITS {
        return None;
    }
    let mut n = 0u32;
    for b in digits {
        n = n * 16 + u32::from(digit(*b)?);
    }
    Some(n)
}

// The number that at most 8 digits write; 0 for anything else, as its callers are promised. `read_number` tells the two apart.
pub fn number(digits: &[u8]) -> u32
    ensures read { length digits.now ≤ 8 → AllDigits digits.now → Writes digits.now result }
    ensures refused { (length digits.now ≤ 8 → AllDigits digits.now → ⊥) → result ≡ 0 }
{
    read_number(digits).unwrap_or(0)
}
