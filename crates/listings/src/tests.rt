// What is written for known verdicts, rounds and refusals.
use crate::*;
use frames::FileFault;
use refusals::Refusal;
use rig::Verdict;
use rounds::{RoundRecord, read_round};
use std::test::Fail;

// Dwells 1 and 1, gaps 1 and 10, the lap 1, 0.
const ROUND: &[u8] = b"110200000002\n12000000010001\n1201000001000A\n13020100\n";

const ANSWER: &[u8] = b"10010000000C\n110200000002\n12000000010001\n1201000001000A\n13020100\n";

// The same lap nine times: 18 dwells, in two parts.
const LONG: &[u8] =
    b"110200000012\n12000000010001\n1201000001000A\n131001000100010001000100010001000100\n13020100\n";

fn record_of(bytes: &[u8]) -> Result<RoundRecord, FileFault> {
    let mut record = RoundRecord::stock();
    read_round(bytes, &mut record)?;
    Ok(record)
}

#[test]
fn answer_with_a_round(rt: HostRuntime) -> Result<(), Fail> {
    let record = record_of(ROUND)?;
    let mut out = [b'-'; 67];
    assert_eq!(rt; write_answer(Finding::Round(&record), 12, &mut out), Ok(65));
    assert!(rt; &out[..65] == ANSWER);
    assert!(rt; &out[65..] == b"--".as_slice());
    Ok(())
}

#[test]
fn answer_without_a_round(rt: HostRuntime) -> Result<(), Fail> {
    let record = record_of(ROUND)?;
    let mut out = [b'-'; 15];
    let finding = Finding::of(Verdict::Full, &record);
    assert_eq!(rt; write_answer(finding, 0xFFFF_FFFF, &mut out), Ok(13));
    assert!(rt; &out[..] == b"1003FFFFFFFF\n--".as_slice());
    Ok(())
}

#[test]
fn refusal_line(rt: HostRuntime) {
    let mut out = [b'-'; 21];
    let refusal = Refusal {
        number: 11,
        line: 4,
        column: 1,
        lap: 2,
        position: 0,
        length: 0,
    };
    assert_eq!(rt; write_refusal(&refusal, &mut out), Ok(21));
    assert!(rt; &out[..] == b"1F0B0000000400000001\n".as_slice());
}

#[test]
fn long_round(rt: HostRuntime) -> Result<(), Fail> {
    let record = record_of(LONG)?;
    let mut out = [b'-'; 89];
    assert_eq!(rt; write_round(&record, &mut out), Ok(89));
    assert!(rt; &out[..] == LONG);
    Ok(())
}

#[test]
fn one_byte_too_short(rt: HostRuntime) -> Result<(), Fail> {
    let record = record_of(ROUND)?;
    let mut out = [b'-'; 64];
    match write_answer(Finding::Round(&record), 12, &mut out) {
        Ok(_) => return Err(Fail::new("written")),
        Err(short) => assert_eq!(rt; short.told(), Refusal::of_length(9, 65)),
    }
    assert_eq!(rt;
        write_round(&record, &mut out[..51]),
        Err(TooShort { needed: 52 })
    );
    assert!(rt; out == [b'-'; 64]);
    Ok(())
}
