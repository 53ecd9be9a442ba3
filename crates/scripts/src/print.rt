// Runs a script, and prints the reply to each call.
use crate::script::{Script, ScriptFault, Step, read_script};
use banks::BankTable;
use readers::{PanelledReader, PlainReader};
use rig::GuidedRig;
use search::{Call, Reply, Row, Uncopied, run_calls};
use std::{fmt, io, slice};

// A reader that is made of a bank table. No `From`, since reader and table are both of other crates.
trait TableReader: GuidedRig {
    fn of_table(table: BankTable) -> Self;
}

impl TableReader for PlainReader {
    fn of_table(table: BankTable) -> PlainReader {
        PlainReader::new(table)
    }
}

impl TableReader for PanelledReader {
    fn of_table(table: BankTable) -> PanelledReader {
        PanelledReader::new(table)
    }
}

// The calls of a script, each grant with the reader that it brings.
fn calls_of<R: TableReader + Drop>(
    rt: &HostRuntime,
    script: &Script,
) -> anyhow::Result<Vec<Call<R>>> {
    let mut table = script.table;
    let mut calls = Vec::new(rt.alloc());
    for step in &script.steps {
        match *step {
            Step::Grant(visits) => calls.push(Call::Grant {
                rig: R::of_table(table),
                visits,
            })?,
            Step::Verdict => calls.push(Call::Verdict)?,
            Step::Copy(length) => calls.push(Call::Copy { length })?,
            Step::Wipe => calls.push(Call::Wipe)?,
            Step::Rig(next) => table = next,
        }
    }
    Ok(calls)
}

// The bytes that the buffers of a script take, and the longest round behind them.
fn bytes_of(script: &Script) -> usize {
    let buffers = script.steps.iter().filter_map(|step| match step {
        Step::Copy(length) => Some(*length),
        _ => None,
    });
    buffers.fold(script.rows, |bytes, length| bytes.saturating_add(length))
}

// The reply to a copy into this buffer.
#[derive(Drop)]
struct CopyReply<'a> {
    reply: Reply,
    buffer: &'a [u8],
}

impl fmt::Display for CopyReply<'_> {
    fn fmt<W: fmt::Write>(&self, f: &mut fmt::Formatter<W>) -> fmt::Result {
        let why = match self.reply {
            Reply::Copied { length } => {
                write!(f, "{length}")?;
                for bank in self.buffer.iter().take(length) {
                    write!(f, " {bank}")?;
                }
                return Ok(());
            }
            Reply::Refused { why } => why,
            _ => Uncopied::NoRound,
        };
        match why {
            Uncopied::NoRound => write!(f, "refused {}", why.told().number),
            Uncopied::Short { needed } => write!(f, "refused {} {needed}", why.told().number),
        }
    }
}

// The replies that are not printed yet, the bytes that hold their copies, and the rows taken since the last wipe.
#[derive(Drop)]
struct Replies<'a> {
    left: slice::Iter<'a, Reply>,
    copies: &'a [u8],
    taken: u64,
}

impl<'a> Replies<'a> {
    // The buffer of the next copy, which has this length.
    fn next_buffer(&mut self, length: usize) -> &'a [u8] {
        let (buffer, rest) = self.copies.split_at(length.min(self.copies.len()));
        self.copies = rest;
        buffer
    }

    // Prints the reply to the next step. The step that changes the rig is no call.
    fn print_next(&mut self, rt: &impl Print, step: Step) -> io::Result<()> {
        if let Step::Rig(_) = step {
            return println!(rt; "rig");
        }
        let reply = self.left.next().copied().unwrap_or(Reply::Wiped);
        match (step, reply) {
            (
                Step::Grant(visits),
                Reply::Granted {
                    verdict,
                    visits: made,
                },
            ) => {
                self.taken = self.taken.saturating_add(made as u64);
                println!(rt;
                    "grant {visits}: {} {made} {}",
                    verdict.number(),
                    self.taken
                )
            }
            (Step::Verdict, Reply::Told { verdict, taken }) => {
                println!(rt; "verdict: {} {taken}", verdict.number())
            }
            (Step::Copy(length), _) => {
                let buffer = self.next_buffer(length);
                println!(rt; "copy {length}: {}", CopyReply { reply, buffer })
            }
            (Step::Wipe, _) => {
                self.taken = 0;
                println!(rt; "wipe")
            }
            _ => Ok(()),
        }
    }
}

// Makes the calls of a script on readers of this kind, and prints the replies.
fn run<R: TableReader + Drop>(rt: &HostRuntime, script: &Script) -> anyhow::Result<()> {
    let calls: Vec<Call<R>> = calls_of(rt, script)?;
    let rest = R::of_table(script.table).rest();
    let mut rows = vec![in rt.alloc(); Row::new(rest); script.rows]?;
    let mut replies = vec![in rt.alloc(); Reply::Wiped; calls.len()]?;
    let mut room = vec![in rt.alloc(); 0u8; bytes_of(script)]?;
    let _ = run_calls(
        rows.as_mut_slice(),
        calls.as_slice(),
        replies.as_mut_slice(),
        room.as_mut_slice(),
    );
    println!(rt; "rows {}", script.rows)?;
    let mut replies = Replies {
        left: replies.iter(),
        copies: room.as_slice(),
        taken: 0,
    };
    for step in &script.steps {
        replies.print_next(rt, *step)?;
    }
    Ok(())
}

// Reads a script, makes its calls on the plain reader where the first sheet does not settle and else on the panelled one,
// and prints the replies, or why the script cannot be read.
pub fn print_script(rt: &HostRuntime, bytes: &[u8]) -> anyhow::Result<()> {
    match read_script(rt.alloc(), bytes) {
        Ok(script) if script.table.settle() == 0 => run::<PlainReader>(rt, &script),
        Ok(script) => run::<PanelledReader>(rt, &script),
        Err(ScriptFault::Memory(error)) => Err(ScriptFault::Memory(error).into()),
        Err(fault) => {
            println!(rt; "{fault}")?;
            Ok(())
        }
    }
}
