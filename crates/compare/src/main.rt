// Answers many cases, one behind the other on standard input, for the comparison with the reference in another language.
// Each case is a letter for its kind, a space, the number of its bytes in decimal digits, a byte 0A, the bytes, and a byte 0A.
#![tactic(auto)]

mod kind;

use answers::{print_plan, print_round, print_sheet};
use banks::{StoredTable, read_table};
use batches::{Case, Cases};
use deadlines::{choose, is_hopeless};
use frames::{number, number_at};
use kind::Kind;
use readers::{PanelledReader, PlainReader};
use rig::{Moves, Rig, Unfit, check_list};
use scripts::print_script;
use sheets::MOST_BANKS;
use std::io;
use std::io::Read;
use std::iter::repeat;

// Ages and untried banks behind the lines of a table.
fn answer_ages(rt: &HostRuntime, stored: &StoredTable, digits: &[u8]) -> io::Result<()> {
    let table = stored.table;
    let count = table.count();
    let mut ages = [0u16; MOST_BANKS];
    for (k, age) in ages.iter_mut().enumerate().take(count as usize) {
        *age = number_at(digits, 4 * k, 4).min(65535) as u16;
    }
    let untried = (0..count)
        .filter(|i| number_at(digits, 4 * count as usize + *i as usize, 1) == 1)
        .fold(Moves::none(), |moves, i| moves.with(i));
    let word = if is_hopeless(&table, &ages) {
        "hopeless"
    } else {
        "open"
    };
    println!(rt; "{word} {}", choose(&table, &ages, &untried))
}

// What the checker replies on a reader.
fn answer_list<R: Rig>(rt: &HostRuntime, name: &str, reader: &R, list: &[u8]) -> io::Result<()> {
    match check_list(reader, list) {
        Ok(_) => println!(rt; "{name}: accepted"),
        Err(Unfit::NoMove { position }) => println!(rt; "{name}: no move at position {position}"),
        Err(Unfit::Unlawful { lap, position }) => {
            println!(rt; "{name}: lap {lap}, position {position}")
        }
    }
}

// A list behind the lines of a table, on both readers.
fn answer_lists(rt: &HostRuntime, stored: &StoredTable, digits: &[u8]) -> anyhow::Result<()> {
    let mut list = Vec::new(rt.alloc());
    for bank in digits
        .chunks_exact(2)
        .map(|digits| number(digits))
        .chain(repeat(0))
        .take(stored.dwells as usize)
    {
        list.push(bank.min(255) as u8)?;
    }
    let list = list.as_slice();
    answer_list(rt, "plain", &PlainReader::new(stored.table), list)?;
    answer_list(rt, "panelled", &PanelledReader::new(stored.table), list)?;
    Ok(())
}

fn answer(rt: &HostRuntime, kind: Kind, bytes: &[u8]) -> anyhow::Result<()> {
    match kind {
        Kind::Round => print_round(rt, bytes)?,
        Kind::Sheet => print_sheet(rt, bytes)?,
        Kind::Plan => print_plan(rt, bytes)?,
        Kind::Script => print_script(rt, bytes)?,
        Kind::Ages | Kind::Lists => match read_table(bytes) {
            Ok(stored) if kind == Kind::Ages => answer_ages(rt, &stored, &bytes[stored.end..])?,
            Ok(stored) => answer_lists(rt, &stored, &bytes[stored.end..])?,
            Err(_) => println!(rt; "no table")?,
        },
    }
    Ok(())
}

fn main(rt: HostRuntime) -> anyhow::Result<()> {
    let mut input = Vec::new(rt.alloc());
    rt.stdin().read_to_end(&mut input)?;
    for Case { head: kind, bytes } in Cases::new(input.as_slice()) {
        answer(&rt, kind, bytes)?;
    }
    Ok(())
}
