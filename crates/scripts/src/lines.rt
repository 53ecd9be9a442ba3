// The lines of a script.
ghost use Rattle.std.specs.Prelude.{◌≡◌, ◌+◌, ◌^◌, ◌<◌, ◌≤◌, ◌==◌, length, position, IfSome, MatchOption};
ghost use Rattle.std.specs.Io.BufRead.{drop_through};
ghost use Rattle.scripts.specs.Lines.{line_count};

use frames::LINE_END;

// The most digits of a number.
const MOST_DIGITS: usize = 10;

// The place of the first byte that closes a line.
fn find_end(text: &[u8]) -> Option<usize>
    ensures first { result ≡ position (λ b. b == 10) text.now }
    ensures within { IfSome result (λ k. k < length text.now) }
{
    text.iter().position(|b| *b == LINE_END)
}

// The lines from some place of a text on, and the number of the first, from 1. The numbers stay so small that adding one
// to them never saturates.
#[derive(Drop)]
pub(crate) struct Lines<'a> {
    rest: &'a [u8],
    number: usize,
    ghost counted: { number + length rest.now < 2 ^ 64 },
}

impl<'a> Lines<'a> {
    // All lines of a text.
    pub(crate) fn new(text: &'a [u8]) -> Lines<'a>
        ensures whole { result.rest.now ≡ text.now }
        ensures first { result.number ≡ 1 }
    {
        Lines {
            rest: text,
            number: 1,
        }
    }

    // The number of the next line.
    pub(crate) fn number(&self) -> usize
        ensures { result ≡ self.now.number }
    {
        self.number
    }

    // Cuts off the next line with the byte that closes it, if that is there.
    pub(crate) fn cut_line(&mut self) -> Option<&'a [u8]>
        ensures fewer { IfSome result (λ _. length self.new.rest.now < length self.old.rest.now) }
        ensures within { length self.new.rest.now ≤ length self.old.rest.now }
        ensures next { MatchOption result (self.new ≡ self.old) (λ _. self.new.number ≡ self.old.number + 1) }
        ensures behind { self.new.rest.now ≡ drop_through 10 self.old.rest.now }
        ensures counted { self.new.number + line_count self.new.rest.now ≡ self.old.number + line_count self.old.rest.now }
    {
        let rest = self.rest;
        if rest.is_empty() {
            return None;
        }
        let end = find_end(rest);
        let (line, behind) = rest.split_at(end.map_or(rest.len(), |k| k + 1));
        self.rest = behind;
        self.number = self.number.saturating_add(1);
        Some(line)
    }

    // Cuts off the lines up to the first that begins with these bytes, or all.
    pub(crate) fn cut_through(&mut self, start: &[u8]) -> &'a [u8]
        ensures within { length self.new.rest.now ≤ length self.old.rest.now }
        ensures counted { self.new.number + line_count self.new.rest.now ≡ self.old.number + line_count self.old.rest.now }
        ensures bounded { self.new.number + length self.new.rest.now ≤ self.old.number + length self.old.rest.now }
        ensures onward { self.old.number ≤ self.new.number }
    {
        let lines = self.rest;
        while let Some(line) = self.cut_line() {
            if line.starts_with(start) {
                break;
            }
        }
        &lines[..lines.len() - self.rest.len()]
    }
}

// The text of a line without the byte that closes it, if that is there.
pub(crate) fn closed(line: &[u8]) -> Option<&str> {
    str::from_utf8(line.strip_suffix(&[LINE_END])?).ok()
}

// The number that one to ten decimal digits write.
pub(crate) fn decimal(digits: &str) -> Option<u64> {
    if digits.len() > MOST_DIGITS || !digits.bytes().all(|b| b.is_ascii_digit()) {
        return None;
    }
    digits.parse().ok()
}
