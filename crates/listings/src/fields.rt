// Fields: numbers written in so many digits, the most significant first.
ghost use Rattle.std.specs.Prelude.{◌≡◌, ◌<◌, ◌≤◌, [], ◌∷◌, length, List};
ghost use Rattle.std.specs.Iterator.{Drains, HoldsAlong, IsFinite};
ghost use Rattle.frames.specs.Digits.{digit, numeral};
ghost use Rattle.listings.specs.declared.fields.Field.{Field as AnyField};
ghost use Rattle.listings.specs.Writing.{Put};
ghost use Rattle.listings.specs.Texts.{field_text, line_text};

use crate::listed::{Listed, put_all};
use frames::LINE_END;

// So many digits, and the number that they write.
#[derive(Clone, Copy)]
pub(crate) struct Field(pub(crate) usize, pub(crate) usize);

// The byte of a digit.
#[tactic(auto, using(std::proofs::lemmas::Bool::Decides::nat_tests), unfolding(frames::specs::Digits::digit))]
fn digit(v: u8) -> u8
    requires { v < 16 }
    ensures { result ≡ digit v }
{
    if v < 10 { b'0' + v } else { b'A' - 10 + v }
}

impl Listed for Field {
    ghost text = { field_text };

    fn put(&self, out: &mut [u8]) -> usize {
        let Field(width, number) = *self;
        let mut rest = number;
        // By index: of what is written through `iter_mut().rev()` a proof knows nothing.
        for k in (0..width).rev() {
            out[k] = digit((rest % 16) as u8);
            rest /= 16;
        }
        width
    }
}

// The byte that closes a line.
fn put_close(out: &mut [u8]) -> usize
    requires { 1 ≤ length out.old }
    ensures { Put (10 ∷ []) out.old out.new result }
{
    out[0] = LINE_END;
    1
}

// A line of all these fields, closed.
pub(crate) fn put_line<I: Iterator<Item = Field> + Drop>(fields: I, out: &mut [u8]) -> usize
    requires can { I.can_next fields }
    requires ends { IsFinite (I.remaining fields) }
    requires room { HoldsAlong I.next_gives fields (λ xs. length (line_text xs) ≤ length out.old) }
    ensures { (xs : List AnyField) × Drains I.next_gives fields xs × Put (line_text xs) out.old out.new result }
{
    let at = put_all(fields, out);
    at + put_close(&mut out[at..])
}

// A line of these fields, closed.
pub(crate) fn put_fields(fields: &[Field], out: &mut [u8]) -> usize
    requires { length (line_text fields.now) ≤ length out.old }
    ensures { Put (line_text fields.now) out.old out.new result }
{
    put_line(fields.iter().copied(), out)
}
