use crate::*;

// What a line is cut into, by the number of its kind; 0 for no frame, 255 for a byte that is no digit.
fn cut(bytes: &[u8]) -> u8 {
    match cut_frame(bytes, 1) {
        Ok(Frame::SheetHead(_)) => 0x01,
        Ok(Frame::SheetBank(_)) => 0x02,
        Ok(Frame::Feeder(_)) => 0x03,
        Ok(Frame::FeederCount(_)) => 0x04,
        Ok(Frame::Verdict(_)) => 0x10,
        Ok(Frame::RoundHead(_)) => 0x11,
        Ok(Frame::RoundBank(_)) => 0x12,
        Ok(Frame::RoundPart(_)) => 0x13,
        Ok(Frame::Refused(_)) => 0x1F,
        Err(FrameFault::Shape { .. }) => 0,
        Err(FrameFault::Digit(_)) => 255,
    }
}

#[test]
fn digits(rt: HostRuntime) {
    assert_eq!(rt; digit_value(b'0'), 0);
    assert_eq!(rt; digit_value(b'9'), 9);
    assert_eq!(rt; digit_value(b'A'), 10);
    assert_eq!(rt; digit_value(b'F'), 15);
    assert_eq!(rt; digit_value(b'a'), NO_DIGIT);
    assert_eq!(rt; digit_value(b'G'), NO_DIGIT);
    assert_eq!(rt; digit_value(b'\r'), NO_DIGIT);
}

#[test]
fn numbers(rt: HostRuntime) {
    assert_eq!(rt; number(b"00FF"), 255);
    assert_eq!(rt; number(b"FFFFFFFF"), 4294967295);
    assert_eq!(rt; number(b"000000001"), 0);
    assert_eq!(rt; number(b"0a"), 0);
}

#[test]
fn kinds(rt: HostRuntime) {
    assert_eq!(rt; cut(b"01020003"), 0x01);
    assert_eq!(rt; cut(b"020100"), 0x02);
    assert_eq!(rt; cut(b"03FFFF0000020008"), 0x03);
    assert_eq!(rt; cut(b"040001"), 0x04);
    assert_eq!(rt; cut(b"100100000002"), 0x10);
    assert_eq!(rt; cut(b"110200030004"), 0x11);
    assert_eq!(rt; cut(b"12000100020003"), 0x12);
    assert_eq!(rt; cut(b"13020001"), 0x13);
    assert_eq!(rt; cut(b"1F0200000001FFFFFFFF"), 0x1F);
}

#[test]
fn no_frames(rt: HostRuntime) {
    assert_eq!(rt; cut(b""), 0);
    assert_eq!(rt; cut(b"1"), 0);
    assert_eq!(rt; cut(b"05000000"), 0);
    assert_eq!(rt; cut(b"130"), 0);
    assert_eq!(rt; cut(b"13020001FF"), 0);
    assert_eq!(rt; cut(b"04000a"), 255);
}

#[test]
fn faults(rt: HostRuntime) {
    assert_eq!(rt;
        next_frame(b"x", 2).err(),
        Some(FileFault::Unclosed { line: 2 })
    );
    let digit = DigitFault { line: 2, column: 3 };
    let fault = FileFault::Frame(FrameFault::Digit(digit));
    assert_eq!(rt; next_frame(b"04x\n", 2).err(), Some(fault));
    assert_eq!(rt; fault.told(), digit.told());
}
