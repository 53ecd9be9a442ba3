// Lines: bytes up to the byte 0A that closes them.
ghost use Rattle.std.specs.Option.{MatchOption};
ghost use Rattle.frames.specs.Lines.{NoneCloses, ClosedLine};

// The longest file that is read.
pub const MOST_BYTES: usize = 65536;

// The byte that closes a line.
pub const LINE_END: u8 = 10;

// The first line, without the byte that closes it, and what comes after that byte; nothing where no line is closed.
pub fn split_line(rest: &[u8]) -> Option<(&[u8], &[u8])>
    ensures { MatchOption result (NoneCloses rest.now) (λ p. ClosedLine rest.now p.0.now p.1.now) }
{
    let k = rest.iter().position(|b| *b == LINE_END)?;
    Some((&rest[0..k], &rest[k + 1..]))
}
