// A tester's tool: makes the calls of a script on a search book, and prints each reply.
#![tactic(auto)]

use scripts::print_script;
use std::io::Read;

fn main(rt: HostRuntime) -> anyhow::Result<()> {
    let mut input = Vec::new(rt.alloc());
    rt.stdin().read_to_end(&mut input)?;
    print_script(&rt, input.as_slice())
}
