use crate::reader::RunningReader;
use rounds::{RoundRecord, read_round};
use std::process::Abort;

// Settle 3, panels 0, 0 and 1, dwells 1, 2 and 4, gaps 50, and the lap 0, 1, 2.
const THREE: &[u8] = b"110300030003\n12000000010032\n12010000020032\n12020100040032\n1303000102\n";

fn record_of(rt: &impl Abort, bytes: &[u8]) -> RoundRecord {
    let mut record = RoundRecord::stock();
    assert!(rt; read_round(bytes, &mut record).is_ok());
    record
}

fn tells(rt: &impl Abort, reader: &mut RunningReader, replies: &[(u8, u16, u16)]) {
    for (k, reply) in replies.iter().enumerate() {
        assert_eq!(rt; reader.next(), *reply, "{}", k);
    }
}

// The very first dwell settles never; the first of each later lap settles against the last of the lap before.
#[test]
fn laps(rt: HostRuntime) {
    let mut reader = RunningReader::start(record_of(&rt, THREE));
    tells(&rt, &mut reader, &[(0, 0, 1), (1, 0, 2), (2, 3, 4)]);
    tells(&rt, &mut reader, &[(0, 3, 1), (1, 0, 2), (2, 3, 4)]);
    tells(&rt, &mut reader, &[(0, 3, 1), (1, 0, 2), (2, 3, 4)]);
    tells(&rt, &mut reader, &[(0, 3, 1), (1, 0, 2), (2, 3, 4)]);
}

// A reader that is stopped within a lap gives its record back, and a reader started on it begins anew.
#[test]
fn stopped(rt: HostRuntime) {
    let mut reader = RunningReader::start(record_of(&rt, THREE));
    tells(
        &rt,
        &mut reader,
        &[(0, 0, 1), (1, 0, 2), (2, 3, 4), (0, 3, 1)],
    );
    let mut later = RunningReader::start(reader.stop());
    tells(
        &rt,
        &mut later,
        &[(0, 0, 1), (1, 0, 2), (2, 3, 4), (0, 3, 1)],
    );
}
