// Reads a feeder sheet from standard input, and prints what each bank needs or why the sheet is refused.
#![tactic(auto)]

use answers::{print_sheet, read_file};
use std::io;

fn main(rt: HostRuntime) -> io::Result<()> {
    let file = read_file(rt.alloc(), rt.stdin())?;
    print_sheet(&rt, file.as_slice())
}
