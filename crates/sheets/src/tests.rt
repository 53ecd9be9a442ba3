use crate::*;
use frames::FileFault;

// The needs of a bank of the sheet that these bytes are.
fn needs(bytes: &[u8], bank: u8) -> Option<BankNeeds> {
    match read_sheet(bytes) {
        Ok(sheet) => bank_needs(&sheet, bank),
        Err(_) => None,
    }
}

// The fault of bytes that are no sheet.
fn fault(bytes: &[u8]) -> Option<SheetFault> {
    read_sheet(bytes).err()
}

#[test]
fn one_feeder_in_each_bank(rt: HostRuntime) {
    let bytes = b"01020000\n020000\n020103\n0300010000020005\n0300020103E8FFFF\n040002\n";
    let first = BankNeeds {
        feeders: 1,
        panel: 0,
        dwell: 2,
        dwell_feeder: 1,
        gap: 1,
        gap_feeder: 1,
    };
    let second = BankNeeds {
        feeders: 1,
        panel: 3,
        dwell: 1000,
        dwell_feeder: 2,
        gap: 63535,
        gap_feeder: 2,
    };
    assert_eq!(rt; needs(bytes, 0), Some(first));
    assert_eq!(rt; needs(bytes, 1), Some(second));
    assert_eq!(rt; needs(bytes, 2), None);
}

// The longest reading and the least allowance are those of different feeders, and of the first among equals.
#[test]
fn several_feeders_in_a_bank(rt: HostRuntime) {
    let bytes =
        b"01020000\n020000\n020100\n03FFFF01000100FF\n0300070000040020\n0300030000010008\n0300010000040012\n0300020000010009\n030004000002000A\n040006\n";
    let bank = BankNeeds {
        feeders: 5,
        panel: 0,
        dwell: 4,
        dwell_feeder: 7,
        gap: 6,
        gap_feeder: 3,
    };
    assert_eq!(rt; needs(bytes, 0), Some(bank));
}

#[test]
fn faults(rt: HostRuntime) {
    assert_eq!(rt;
        fault(b"01020000\n020000\n020100\n0300010000020004\n"),
        Some(SheetFault::File(FileFault::Field {
            line: 4,
            column: 13,
        }))
    );
    assert_eq!(rt;
        fault(b"01020000\n020000\n020100\n040000\n"),
        Some(SheetFault::File(FileFault::Misplaced { line: 4 }))
    );
    assert_eq!(rt;
        fault(b"01020000\n020000\n020100\n0300010000020005\n0300020000020005\n0300010000020005\n"),
        Some(SheetFault::Repeated { line: 6 })
    );
    assert_eq!(rt;
        fault(b"01020000\n020000\n020100\n0300010000020005\n040001\nx"),
        Some(SheetFault::NoFeeder { line: 5 })
    );
    assert_eq!(rt;
        fault(b"01020000\n020000\n020100\n0300010000020005\n0300020100020005\n040002\nx"),
        Some(SheetFault::File(FileFault::AfterEnd { line: 7 }))
    );
}
