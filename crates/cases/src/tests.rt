// What the tests share: files in their parts, a record that holds a round, and what a reading of bytes tells.
use banks::BankTable;
use frames::FileFault;
use refusals::Refusal;
use rounds::{RoundRecord, read_round};
use std::alloc::{AllocError, Global};
use std::process::Abort;
use std::test::Fail;

mod accounts_of_files;
mod ends;
mod fields;
mod frames_of_files;
mod laps;
mod lists;
mod sizes;

// Two banks, settle 0, two dwells.
const H: &[u8] = b"110200000002\n";

// Bank 0: panel 0, dwell 1, gap 1.
const A: &[u8] = b"12000000010001\n";

// Bank 1: panel 0, dwell 1, gap 10.
const B: &[u8] = b"1201000001000A\n";

// The lap 1, 0.
const P: &[u8] = b"13020100\n";

// The first 16 of more dwells: 1, 0, eight times.
const SIXTEEN: &[u8] = b"131001000100010001000100010001000100\n";

// All of these.
const KEPT: &[u8] = b"110200000002\n12000000010001\n1201000001000A\n13020100\n";

// What every record of the tests holds first: settle 3, panels 0 and 1, dwells 1, gaps 7, and the lap 0, 1.
const FORMER: &[u8] = b"110200030002\n12000000010007\n12010100010007\n13020001\n";

const FORMER_LIST: &[u8] = &[0, 1];

// A file in its parts, and the line and column of its refusal.
#[derive(Clone, Copy)]
struct Case(&'static [&'static [u8]], u32, u32);

// The parts one behind the other.
fn joined(heap: Global, parts: &[&[u8]]) -> Result<Vec<u8>, AllocError> {
    let mut bytes = Vec::new(heap);
    for part in parts {
        bytes.extend_from_slice(part)?;
    }
    Ok(bytes)
}

// A front, a part and how many times it stands behind it, and an end.
#[derive(Clone, Copy)]
struct Repeated(&'static [u8], &'static [u8], usize, &'static [u8]);

fn bytes_of(heap: Global, of: &Repeated) -> Result<Vec<u8>, AllocError> {
    let Repeated(front, part, count, end) = *of;
    let mut bytes = Vec::new(heap);
    bytes.extend_from_slice(front)?;
    for _ in 0..count {
        bytes.extend_from_slice(part)?;
    }
    bytes.extend_from_slice(end)?;
    Ok(bytes)
}

// The record of a good file.
fn record_of(bytes: &[u8]) -> Result<RoundRecord, FileFault> {
    let mut record = RoundRecord::stock();
    read_round(bytes, &mut record)?;
    Ok(record)
}

// Whether the record holds this table and this list.
fn holds(record: &RoundRecord, table: &BankTable, list: &[u8]) -> bool {
    record.table() == *table && record.list() == list
}

// The fault of a file, if it has one. A record that holds another round is as it was after a fault.
fn fault_of(rt: &impl Abort, bytes: &[u8]) -> Result<Option<FileFault>, Fail> {
    let mut record = record_of(FORMER)?;
    let former = record.table();
    match read_round(bytes, &mut record) {
        Ok(()) => Ok(None),
        Err(fault) => {
            assert!(rt; holds(&record, &former, FORMER_LIST));
            Ok(Some(fault))
        }
    }
}

// What is told of the fault of a file, if it has one.
fn told_of(rt: &impl Abort, heap: Global, file: &[&[u8]]) -> Result<Option<Refusal>, Fail> {
    let bytes = joined(heap, file)?;
    match fault_of(rt, bytes.as_slice())? {
        Some(fault) => Ok(Some(fault.told())),
        None => Ok(None),
    }
}

// Checks that each file is refused with this number, at its line and column. A failure notes which case it is, from 0.
fn all_refused(rt: &impl Abort, heap: Global, number: u8, cases: &[Case]) -> Result<(), Fail> {
    for (k, case) in cases.iter().enumerate() {
        let Case(file, line, column) = *case;
        let expected = Refusal {
            number,
            line,
            column,
            lap: 0,
            position: 0,
            length: 0,
        };
        assert_eq!(rt; told_of(rt, heap, file)?, Some(expected), "{}", k);
    }
    Ok(())
}
