// Files that are long, and the three faults that have the number 7.
use crate::tests::*;
use frames::{DigitFault, FrameFault};
use std::process::Abort;

// The head of a round with the most dwells, and its two banks.
const LONGEST: &[u8] = b"110200001000\n12000000010001\n1201000001000A\n";

// A long file and its fault, if it has one.
#[derive(Clone, Copy)]
struct Long(Repeated, Option<FileFault>);

fn long_fault(rt: &impl Abort, heap: Global, file: &Repeated) -> Result<Option<FileFault>, Fail> {
    let bytes = bytes_of(heap, file)?;
    fault_of(rt, bytes.as_slice())
}

fn all_long(rt: &impl Abort, heap: Global, cases: &[Long]) -> Result<(), Fail> {
    for (k, case) in cases.iter().enumerate() {
        let Long(file, fault) = *case;
        assert_eq!(rt; long_fault(rt, heap, &file)?, fault, "{}", k);
    }
    Ok(())
}

const AT_THE_LIMIT: &[Long] = &[
    // 65,536 bytes, and one more.
    Long(
        Repeated(KEPT, b"\n", 65484, b""),
        Some(FileFault::AfterEnd { line: 5 }),
    ),
    Long(Repeated(KEPT, b"\n", 65485, b""), Some(FileFault::TooLong)),
    Long(
        Repeated(b"", b"0", 65536, b""),
        Some(FileFault::Unclosed { line: 1 }),
    ),
    Long(Repeated(b"", b"0", 65537, b""), Some(FileFault::TooLong)),
    Long(
        Repeated(b"x\n", b"0", 65534, b""),
        Some(FileFault::Frame(FrameFault::Digit(DigitFault { line: 1, column: 1 }))),
    ),
    Long(Repeated(b"x\n", b"0", 65535, b""), Some(FileFault::TooLong)),
    Long(
        Repeated(b"", b"0", 65534, b"x\n"),
        Some(FileFault::Frame(FrameFault::Digit(DigitFault {
            line: 1,
            column: 65535,
        }))),
    ),
];

// A part with the largest count that two digits write, and laps with the most dwells.
const LONG_PARTS: &[Long] = &[
    Long(
        Repeated(
            b"110200000002\n12000000010001\n1201000001000A\n13FF",
            b"00",
            255,
            b"\n",
        ),
        Some(FileFault::Field { line: 4, column: 3 }),
    ),
    Long(Repeated(LONGEST, SIXTEEN, 256, b""), None),
    Long(
        Repeated(LONGEST, SIXTEEN, 255, b""),
        Some(FileFault::Unclosed { line: 259 }),
    ),
    Long(
        Repeated(LONGEST, SIXTEEN, 256, SIXTEEN),
        Some(FileFault::AfterEnd { line: 260 }),
    ),
    Long(
        Repeated(
            LONGEST,
            SIXTEEN,
            255,
            b"131001000100010001000100010001000101\n",
        ),
        Some(FileFault::Unlawful {
            line: 259,
            lap: 1,
            position: 4095,
        }),
    ),
];

#[test]
fn at_the_limit(rt: HostRuntime) -> Result<(), Fail> {
    all_long(&rt, rt.alloc(), AT_THE_LIMIT)
}

#[test]
fn long_parts(rt: HostRuntime) -> Result<(), Fail> {
    all_long(&rt, rt.alloc(), LONG_PARTS)
}

#[test]
fn too_long_is_told_at_line_one(rt: HostRuntime) {
    let told = FileFault::TooLong.told();
    assert_eq!(rt; (told.number, told.line, told.column), (7, 1, 1));
}
