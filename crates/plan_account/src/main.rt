// Reads a feeder sheet from standard input, and prints for people what each bank needs, the verdict, and the account of the round;
// or why the sheet is refused.
#![tactic(auto)]

use accounts::{Account, SheetAccount};
use answers::{print_refusal, read_file};
use planner::{Answer, Finding, answer_sheet};
use sheets::read_sheet;
use std::io;

fn main(rt: HostRuntime) -> io::Result<()> {
    let file = read_file(rt.alloc(), rt.stdin())?;
    let sheet = match read_sheet(file.as_slice()) {
        Ok(sheet) => sheet,
        Err(fault) => return print_refusal(&rt, fault.told(), fault),
    };
    let Answer { finding, visits } = answer_sheet(&sheet);
    print!(rt; "{}", SheetAccount { sheet: &sheet })?;
    match finding {
        Finding::NoRound => println!(rt;
            "verdict none after {visits} visits: no order of dwells keeps every gap for ever"
        ),
        Finding::Round(round) => {
            println!(rt; "verdict round after {visits} visits: this round is kept for ever")?;
            print!(rt; "{}", Account { round: &round })
        }
        Finding::Open => println!(rt;
            "verdict open after {visits} visits: the search is not finished"
        ),
        Finding::Full => println!(rt;
            "verdict full after {visits} visits: the rows did not suffice"
        ),
    }
}
