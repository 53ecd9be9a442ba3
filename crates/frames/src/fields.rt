// Fields: numbers at fixed places among digits.
ghost use Rattle.std.specs.Prelude.{◌≡◌, ◌+◌, ◌≤◌, length, take, drop, not, MatchResult};
ghost use Rattle.frames.specs.Digits.{AllDigits};
ghost use Rattle.frames.specs.BadLines.{field, outside};
ghost use Rattle.frames.specs.Fields.{ToldColumn, bad_column, number_in, numbers_in};

use crate::digits::number;
use crate::faults::FileFault;

// The column of the first digit after the kind.
const FIRST_COLUMN: u32 = 3;

// A field of a line: its place among the digits after the kind, its number of digits, and the limits of its number.
#[derive(Clone, Copy, PartialEq, Eq, Debug)]
pub struct Field {
    pub place: u8,
    pub width: u8,
    pub low: u32,
    pub high: u32,
}

// The number in a field of at most 8 digits; 0 where there is no such field, as its callers are promised.
pub fn number_at(digits: &[u8], place: usize, width: usize) -> u32
    ensures read { width ≤ 8 → place + width ≤ length digits.now → AllDigits (take width (drop place digits.now)) → result ≡ field place width digits.now }
    ensures refused { (width ≤ 8 → place + width ≤ length digits.now → AllDigits (take width (drop place digits.now)) → ⊥) → result ≡ 0 }
{
    if place > digits.len() || width > digits.len() - place {
        return 0;
    }
    number(&digits[place..place + width])
}

impl Field {
    // The number in the field, 0 where the digits have no such field: the fields of a frame are all there.
    fn number_in(&self, digits: &[u8]) -> u32
        ensures { result ≡ number_in self.now.place self.now.width digits.now }
    {
        number_at(digits, usize::from(self.place), usize::from(self.width))
    }

    // Whether a number is within the limits of the field.
    fn takes(&self, number: u32) -> bool
        ensures { result ≡ not (outside self.now.low self.now.high number) }
    {
        self.low <= number && number <= self.high
    }
}

// The numbers in the fields of a line, or that of the first field whose number is outside its limits.
pub fn read_fields<const N: usize>(
    digits: &[u8],
    line: u32,
    fields: &[Field; N],
) -> Result<[u32; N], FileFault>
    ensures { MatchResult result (λ ns. (ns ≡ numbers_in fields.now digits.now) × (bad_column fields.now digits.now ≡ 0)) (λ e. ToldColumn (bad_column fields.now digits.now) line e) }
{
    // Numbers are written by their index: of what a zip over `iter_mut` has written, a proof knows nothing.
    let mut numbers = [0; N];
    for (k, field) in fields.iter().enumerate() {
        let number = field.number_in(digits);
        if !field.takes(number) {
            let column = FIRST_COLUMN + u32::from(field.place);
            return Err(FileFault::Field { line, column });
        }
        numbers[k] = number;
    }
    Ok(numbers)
}
