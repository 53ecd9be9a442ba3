// Reads a stored round from standard input, and prints an account of it or why it is refused.
#![tactic(auto)]

ghost use Rattle.std.specs.Prelude.{◌≡◌, ◌≤◌, length, take, IfOk, IfSome};

use answers::print_round;
use frames::MOST_BYTES;
use std::io;
use std::io::Read;

// One byte more than the longest file that is read: with it a file that is too long is known.
const ROOM: usize = MOST_BYTES + 1;

// Fills the room with the bytes of a file, and tells how many there were. A loop over a room of a fixed size takes no
// memory from the heap, so no bytes end the program with status 1.
fn read_input<R: Read + Drop>(mut input: R, room: &mut [u8]) -> io::Result<usize>
    ensures within { IfOk result (λ n. n ≤ length room.new) }
    ensures bytes { IfOk result (λ n. IfSome (R.remaining input) (λ bytes. take n room.new ≡ take (length room.new) bytes)) }
{
    let mut filled = 0;
    while filled < room.len() {
        let more = input.read(&mut room[filled..])?;
        if more == 0 {
            break;
        }
        filled += more;
    }
    Ok(filled)
}

fn main(rt: HostRuntime) -> io::Result<()> {
    let mut room = [0u8; ROOM];
    let filled = read_input(rt.stdin(), &mut room)?;
    print_round(&rt, &room[..filled])
}
