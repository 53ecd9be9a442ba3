// What is printed of a file, and how one is taken from standard input.
#![tactic(auto)]

ghost use Rattle.std.specs.Prelude.{◌≡◌, ◌+◌, take, IfOk, IfSome};

use accounts::{Account, SheetAccount};
use frames::MOST_BYTES;
use planner::plan_text;
use refusals::Refusal;
use rounds::{RoundRecord, read_round};
use sheets::read_sheet;
use std::alloc::Global;
use std::fmt::Display;
use std::io;
use std::io::Read;

// One byte more than the longest file that is read: with it a file that is too long is known.
const ROOM: u64 = MOST_BYTES as u64 + 1;

// Every listing fits into so many bytes.
const LISTING: usize = 16384;

// The bytes of a file: as many as the longest file has, and one more where there are more.
pub fn read_file<R: Read + Drop>(heap: Global, input: R) -> io::Result<Vec<u8>>
    ensures { IfOk result (λ file. IfSome (R.remaining input) (λ bytes. file.items ≡ take (MOST_BYTES + 1) bytes)) }
{
    let mut file = Vec::new(heap);
    input.take(ROOM).read_to_end(&mut file)?;
    Ok(file)
}

// Prints an account of a file as a stored round, or why it is refused.
pub fn print_round(rt: &impl Print, file: &[u8]) -> io::Result<()> {
    let mut round = RoundRecord::stock();
    match read_round(file, &mut round) {
        Ok(()) => print!(rt; "{}", Account { round: &round }),
        Err(fault) => print_refusal(rt, fault.told(), fault),
    }
}

// Prints an account of a file as a feeder sheet, or why it is refused.
pub fn print_sheet(rt: &impl Print, file: &[u8]) -> io::Result<()> {
    match read_sheet(file) {
        Ok(sheet) => print!(rt; "{}", SheetAccount { sheet: &sheet }),
        Err(fault) => print_refusal(rt, fault.told(), fault),
    }
}

// Prints the verdict on a file as a feeder sheet with its round, or why it is refused.
// It keeps a frame of its own, so that only a plan takes the stack of a search, also where a program answers other files besides.
#[inline(never)]
pub fn print_plan(rt: &impl Print, file: &[u8]) -> io::Result<()> {
    let mut listing = [0u8; LISTING];
    match plan_text(file, &mut listing) {
        Ok(length) => rt.write_all(&listing[..length]),
        Err(_) => unreachable(),
    }
}

// Prints the frame of a refusal, and the sentence that says what is wrong where.
pub fn print_refusal<S: Display + Drop>(
    rt: &impl Print,
    told: Refusal,
    sentence: S,
) -> io::Result<()> {
    println!(rt; "{told}\n{sentence}")
}

#[cfg(test)]
mod tests {
    use super::*;

    // A file is taken whole, and of one that is too long one byte over the limit.
    #[test]
    fn files_are_taken(rt: HostRuntime) -> io::Result<()> {
        let short = read_file(rt.alloc(), b"0102".as_slice())?;
        assert!(rt; short.as_slice() == b"0102".as_slice());
        let bytes = vec![in rt.alloc(); 0u8; 65540]?;
        let long = read_file(rt.alloc(), bytes.as_slice())?;
        assert_eq!(rt; long.len(), 65537);
        Ok(())
    }
}
