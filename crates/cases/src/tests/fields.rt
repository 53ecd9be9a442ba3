// Fields outside their limits: 4.
use crate::tests::*;

#[test]
fn head(rt: HostRuntime) -> Result<(), Fail> {
    all_refused(
        &rt,
        rt.alloc(),
        4,
        &[
            Case(&[b"110000000002\n", A, B, P], 1, 3),
            Case(&[b"110100000002\n", A, B, P], 1, 3),
            Case(&[b"111100000002\n", A, B, P], 1, 3),
            Case(&[b"11FF00000002\n", A, B, P], 1, 3),
            Case(&[b"110203E90002\n", A, B, P], 1, 5),
            Case(&[b"1102FFFF0002\n", A, B, P], 1, 5),
            Case(&[b"110200000000\n", A, B, P], 1, 9),
            Case(&[b"110200001001\n", A, B, P], 1, 9),
            Case(&[b"11020000FFFF\n", A, B, P], 1, 9),
            // The first of several, and before the faults of later lines.
            Case(&[b"111103E90000\n", A, B, P], 1, 3),
            Case(&[b"110203E90000\n", A, B, P], 1, 5),
            Case(&[b"110200000000\n", b"x\n"], 1, 9),
            Case(&[b"110200000000\n"], 1, 9),
        ],
    )
}

#[test]
fn bank(rt: HostRuntime) -> Result<(), Fail> {
    all_refused(
        &rt,
        rt.alloc(),
        4,
        &[
            Case(&[H, B, A, P], 2, 3),
            Case(&[H, b"12FF0000010001\n", B, P], 2, 3),
            Case(&[H, A, A, P], 3, 3),
            Case(&[H, A, b"1202000001000A\n", P], 3, 3),
            Case(&[H, b"12000400010001\n", B, P], 2, 5),
            Case(&[H, b"1200FF00010001\n", B, P], 2, 5),
            Case(&[H, b"12000000000001\n", B, P], 2, 7),
            Case(&[H, b"12000003E90001\n", B, P], 2, 7),
            Case(&[H, b"120000FFFF0001\n", B, P], 2, 7),
            Case(&[H, b"12000000010000\n", B, P], 2, 11),
            Case(&[H, b"1200000001FFFE\n", B, P], 2, 11),
            Case(&[H, b"1200000001FFFF\n", B, P], 2, 11),
            Case(&[H, A, b"12010400010001\n", P], 3, 5),
            Case(&[H, A, b"12010000000001\n", P], 3, 7),
            Case(&[H, A, b"1201000001FFFE\n", P], 3, 11),
            // The first of several.
            Case(&[H, b"12010400000000\n", B, P], 2, 3),
            Case(&[H, b"12000400000000\n", B, P], 2, 5),
            Case(&[H, b"12000000000000\n", B, P], 2, 7),
            Case(&[H, b"12000000010000\n", b"x\n", P], 2, 11),
        ],
    )
}

#[test]
fn part(rt: HostRuntime) -> Result<(), Fail> {
    all_refused(
        &rt,
        rt.alloc(),
        4,
        &[
            Case(&[H, A, B, b"1300\n"], 4, 3),
            Case(&[H, A, B, b"130101\n"], 4, 3),
            Case(&[H, A, B, b"1303010001\n"], 4, 3),
            Case(
                &[H, A, B, b"131101000100010001000100010001000100FF\n"],
                4,
                3,
            ),
            Case(
                &[
                    b"110200000011\n",
                    A,
                    B,
                    b"13110100010001000100010001000100010001\n",
                ],
                4,
                3,
            ),
            Case(&[b"110200000010\n", A, B, b"1300\n"], 4, 3),
            Case(
                &[b"110200000012\n", A, B, b"1309010001000100010001\n"],
                4,
                3,
            ),
            Case(&[b"110200000011\n", A, B, SIXTEEN, P], 5, 3),
            Case(&[b"110200000012\n", A, B, SIXTEEN, b"130101\n"], 5, 3),
            Case(&[b"110200000011\n", A, B, SIXTEEN, SIXTEEN], 5, 3),
            Case(&[b"110200001000\n", A, B, b"13020100\n"], 4, 3),
            Case(&[H, A, B, b"1303020202\n"], 4, 3),
            // Numbers that are no bank.
            Case(&[H, A, B, b"13020200\n"], 4, 5),
            Case(&[H, A, B, b"1302FF00\n"], 4, 5),
            Case(&[H, A, B, b"13020102\n"], 4, 7),
            Case(
                &[
                    b"110200000010\n",
                    A,
                    B,
                    b"131001000100010001000100010001000102\n",
                ],
                4,
                35,
            ),
            Case(&[b"110200000011\n", A, B, SIXTEEN, b"130102\n"], 5, 5),
            Case(&[b"110200000013\n", A, B, SIXTEEN, b"1303010010\n"], 5, 9),
            // Before what stands after the end, and though an earlier move is unlawful.
            Case(&[H, A, B, b"13020102\n", b"x"], 4, 7),
            Case(&[b"110200000003\n", A, B, b"1303010102\n"], 4, 9),
        ],
    )
}
