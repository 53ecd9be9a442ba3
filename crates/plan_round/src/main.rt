// Reads a feeder sheet from standard input, and prints the verdict on it with its round, or why the sheet is refused.
#![tactic(auto)]

use answers::{print_plan, read_file};
use std::io;

fn main(rt: HostRuntime) -> io::Result<()> {
    let file = read_file(rt.alloc(), rt.stdin())?;
    print_plan(&rt, file.as_slice())
}
