// Batches of cases: one case behind the other, each with a head that tells how many bytes it has, and a byte behind it.
#![tactic(auto)]

ghost use Rattle.std.specs.Prelude.{◌≡◌, ℕ, Bool, not, List, [], length, take, drop, position, MatchOption, min, ◌+◌, ◌-◌, ◌*◌, ◌≤◌};
ghost use Rattle.std.specs.Char.{is_ascii_digit};
ghost use Rattle.std.specs.List.{before_first, after_first};
ghost use Rattle.std.specs.Iterator.{at_most};
ghost use Rattle.batches.specs.Batches.{CutsCase, decimal};

use std::marker::PhantomData;

// What stands in front of the bytes of a case.
pub trait Head: Drop + Sized {
    // Whether a byte ends a head.
    ghost ends: { ℕ → Bool };

    // The number of bytes of a case with a head of this text.
    ghost size: { List ℕ → ℕ };

    // Whether this byte ends the head; it belongs neither to the head nor to the case.
    fn is_end(byte: u8) -> bool
        ensures { result ≡ ends byte };

    // The head of this text, and how many bytes the case has.
    fn read(text: &[u8]) -> (Self, usize)
        ensures { result.1 ≡ size text.now };
}

// The head of a batch of one kind: only the number of bytes, in decimal digits, up to the first byte that is none.
impl Head for () {
    ghost ends = { λ b. not (is_ascii_digit b) };

    ghost size = { decimal };

    fn is_end(byte: u8) -> bool {
        !byte.is_ascii_digit()
    }

    fn read(text: &[u8]) -> ((), usize) {
        ((), number(text))
    }
}

// A number with one more digit behind it, or the largest number where that is too large.
fn with_digit(n: usize, digit: u8) -> usize
    requires { 48 ≤ digit }
    ensures { result ≡ min (n * 10 + (digit - 48)) usize.MAX }
{
    n.saturating_mul(10).saturating_add((digit - b'0') as usize)
}

// The number that decimal digits write, or the largest number where that is too large; other bytes are passed over.
pub fn number(digits: &[u8]) -> usize
    ensures { result ≡ decimal digits.now }
{
    digits
        .iter()
        .filter(|b| b.is_ascii_digit())
        .fold(0, |n, b| with_digit(n, *b))
}

// A case, by its head and its bytes.
#[derive(Drop)]
pub struct Case<'a, H> {
    pub head: H,
    pub bytes: &'a [u8],
}

// The cases of a batch, in their order.
#[derive(Drop)]
pub struct Cases<'a, H> {
    rest: &'a [u8],
    heads: PhantomData<H>,
}

impl<'a, H: Head> Cases<'a, H> {
    ghost use Rattle.batches.specs.Cases.{bytes_left};

    // All cases of these bytes.
    pub fn new(bytes: &'a [u8]) -> Cases<'a, H>
        ensures { bytes_left result ≡ bytes.now }
    {
        Cases {
            rest: bytes,
            heads: PhantomData,
        }
    }
}

impl<'a, H: Head> Iterator for Cases<'a, H> {
    ghost use Rattle.batches.specs.Cases.{bytes_left};

    type Item = Case<'a, H>;

    ghost next_gives = { λ s r t. MatchOption r (bytes_left s ≡ []) (λ c. CutsCase H.ends H.size (bytes_left s) c.bytes.now (bytes_left t)) };

    ghost remaining = { λ s. at_most (length (bytes_left s)) };

    fn next(&mut self) -> Option<Case<'a, H>> {
        if self.rest.is_empty() {
            return None;
        }
        let (text, behind) = split_head::<H>(self.rest);
        let (head, size) = H::read(text);
        let (bytes, behind) = split_within(behind, size);
        let (_, rest) = split_within(behind, 1);
        self.rest = rest;
        Some(Case { head, bytes })
    }
}

// The bytes before this place and those from it on; all and none where they are fewer.
fn split_within(bytes: &[u8], place: usize) -> (&[u8], &[u8])
    ensures front { result.0.now ≡ take place bytes.now }
    ensures behind { result.1.now ≡ drop place bytes.now }
{
    bytes.split_at(place.min(bytes.len()))
}

// The place of the first byte that ends a head.
fn head_end<H: Head>(bytes: &[u8]) -> Option<usize>
    ensures { result ≡ position H.ends bytes.now }
{
    bytes.iter().position(|b| H::is_end(*b))
}

// The text of the first head, and what stands behind the byte that ends it.
fn split_head<H: Head>(bytes: &[u8]) -> (&[u8], &[u8])
    ensures front { result.0.now ≡ before_first H.ends bytes.now }
    ensures behind { result.1.now ≡ after_first H.ends bytes.now }
{
    match head_end::<H>(bytes) {
        Some(end) => (&bytes[..end], &bytes[end + 1..]),
        None => (bytes, &bytes[bytes.len()..]),
    }
}
