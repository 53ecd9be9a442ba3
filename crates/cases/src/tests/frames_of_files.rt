// Bytes that are no digits: 1. Lines that are no frames: 2. Frames in a place where another is due: 3.
use crate::tests::*;

#[test]
fn no_digits(rt: HostRuntime) -> Result<(), Fail> {
    all_refused(
        &rt,
        rt.alloc(),
        1,
        &[
            Case(&[b"x\n"], 1, 1),
            Case(&[b"xx0200000002\n", A, B, P], 1, 1),
            Case(&[b" 110200000002\n", A, B, P], 1, 1),
            Case(&[b"\xEF\xBB\xBF110200000002\n", A, B, P], 1, 1),
            Case(&[b"110200000002\r\n", A, B, P], 1, 13),
            Case(&[b"\r\n", A, B, P], 1, 1),
            // The bytes on both sides of the digits.
            Case(&[b"1102/0000002\n", A, B, P], 1, 5),
            Case(&[b"11020:000002\n", A, B, P], 1, 6),
            Case(&[b"110200@00002\n", A, B, P], 1, 7),
            Case(&[b"1102000G0002\n", A, B, P], 1, 8),
            Case(&[b"11020000\x000002\n", A, B, P], 1, 9),
            Case(&[H, b"1200000001f001\n", B, P], 2, 11),
            Case(&[H, A, b"1201000001000a\n", P], 3, 14),
            Case(&[H, A, B, b"1302G100\n"], 4, 5),
            Case(&[b"110200000011\n", A, B, SIXTEEN, b"13010a\n"], 5, 6),
            // Before the wrong number of digits, a wrong kind and a field outside its limits.
            Case(&[b"11x\n", A, B, P], 1, 3),
            Case(&[b"0102000x\n", A, B, P], 1, 8),
            Case(&[b"11FF0000000x\n", A, B, P], 1, 12),
        ],
    )
}

#[test]
fn no_frames(rt: HostRuntime) -> Result<(), Fail> {
    all_refused(
        &rt,
        rt.alloc(),
        2,
        &[
            Case(&[b"\n", A, B, P], 1, 1),
            Case(&[b"1\n", A, B, P], 1, 1),
            Case(&[b"11\n", A, B, P], 1, 1),
            Case(&[b"11020000002\n", A, B, P], 1, 1),
            Case(&[b"1102000000020\n", A, B, P], 1, 1),
            Case(&[b"000200000002\n", A, B, P], 1, 1),
            Case(&[b"050200000002\n", A, B, P], 1, 1),
            Case(&[b"140200000002\n", A, B, P], 1, 1),
            Case(&[b"FF0200000002\n", A, B, P], 1, 1),
            Case(&[H, b"1200000001001\n", B, P], 2, 1),
            Case(&[H, A, b"\n", B, P], 3, 1),
            // The number of digits of a part is that of its count.
            Case(&[H, A, B, b"13\n"], 4, 1),
            Case(&[H, A, B, b"130\n"], 4, 1),
            Case(&[H, A, B, b"130201\n"], 4, 1),
            Case(&[H, A, B, b"130201000\n"], 4, 1),
            Case(&[H, A, B, b"1302010001\n"], 4, 1),
            Case(&[H, A, B, b"13000100\n"], 4, 1),
            Case(&[H, A, B, b"1111020000000200\n"], 4, 1),
        ],
    )
}

#[test]
fn known_kinds_of_wrong_length(rt: HostRuntime) -> Result<(), Fail> {
    all_refused(
        &rt,
        rt.alloc(),
        2,
        &[
            Case(&[b"010200000\n", A, B, P], 1, 1),
            Case(&[b"0200000\n", A, B, P], 1, 1),
            Case(&[b"030000000001002\n", A, B, P], 1, 1),
            Case(&[b"04000\n", A, B, P], 1, 1),
            Case(&[b"10010000002\n", A, B, P], 1, 1),
            Case(&[b"120000000100010\n", A, B, P], 1, 1),
            Case(&[b"130\n", A, B, P], 1, 1),
            Case(&[b"1F01000000010000000\n", A, B, P], 1, 1),
            Case(&[H, b"0102000\n", B, P], 2, 1),
            Case(&[H, A, B, b"120200000100010\n"], 4, 1),
        ],
    )
}

#[test]
fn another_kind_is_due(rt: HostRuntime) -> Result<(), Fail> {
    all_refused(
        &rt,
        rt.alloc(),
        3,
        &[
            Case(&[b"01020000\n", A, B, P], 1, 1),
            Case(&[b"020000\n", A, B, P], 1, 1),
            Case(&[b"0300000000010002\n", A, B, P], 1, 1),
            Case(&[b"040001\n", A, B, P], 1, 1),
            Case(&[b"100000000002\n", A, B, P], 1, 1),
            Case(&[A, B, P], 1, 1),
            Case(&[P, H, A, B], 1, 1),
            Case(&[b"1F010000000100000001\n", A, B, P], 1, 1),
            Case(&[H, H, A, B, P], 2, 1),
            Case(&[H, P, A, B], 2, 1),
            Case(&[H, A, P], 3, 1),
            Case(&[H, A, b"01020000\n", P], 3, 1),
            Case(&[H, A, b"020100\n", P], 3, 1),
            Case(&[H, A, B, H], 4, 1),
            Case(&[H, A, B, b"12020000010001\n", P], 4, 1),
            Case(&[H, A, B, b"1F010000000100000001\n"], 4, 1),
            Case(&[b"110200000011\n", A, B, SIXTEEN, B], 5, 1),
            // Before a field outside its limits.
            Case(&[b"12FFFFFFFFFFFF\n", A, B, P], 1, 1),
            Case(&[H, b"1300\n", B, P], 2, 1),
            Case(&[H, A, B, b"11FFFFFFFFFF\n"], 4, 1),
        ],
    )
}
