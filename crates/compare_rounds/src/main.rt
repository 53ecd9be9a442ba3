// Answers many stored rounds, one behind the other on standard input: for each the number of its bytes in decimal digits,
// a byte 0A, the bytes, and a byte 0A. Each answer is printed as `check_round` prints it.
#![tactic(auto)]

use answers::print_round;
use batches::{Case, Cases};
use std::io::Read;

fn main(rt: HostRuntime) -> anyhow::Result<()> {
    let mut input = Vec::new(rt.alloc());
    rt.stdin().read_to_end(&mut input)?;
    for Case { head: (), bytes } in Cases::new(input.as_slice()) {
        print_round(&rt, bytes)?;
    }
    Ok(())
}
