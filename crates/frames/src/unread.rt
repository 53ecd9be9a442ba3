// What is yet to be read of a file, line by line.
ghost use Rattle.std.specs.Prelude.{◌+◌, ◌≤◌, length};

mod calls;

// The bytes behind the lines that were read, and the number of the line that they begin with. Lines count from 1.
#[derive(Clone, Copy)]
pub struct Unread<'a> {
    rest: &'a [u8],
    line: u32,
    ghost first: { 1 ≤ line },
    ghost counted: { line + length rest.now ≤ 65537 },
}
