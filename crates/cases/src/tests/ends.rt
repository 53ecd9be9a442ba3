// Lines that are lacking, not closed or after the end: 7.
use crate::tests::*;

#[test]
fn lacking_lines(rt: HostRuntime) -> Result<(), Fail> {
    all_refused(
        &rt,
        rt.alloc(),
        7,
        &[
            Case(&[], 1, 1),
            Case(&[b"x"], 1, 1),
            Case(&[b"110200000002"], 1, 1),
            Case(&[H], 2, 1),
            Case(&[H, b"12000000010001"], 2, 1),
            Case(&[H, A], 3, 1),
            Case(&[H, A, B], 4, 1),
            Case(&[H, A, B, b"13020100"], 4, 1),
            Case(&[H, A, B, b"13020100\r"], 4, 1),
            Case(&[H, A, B, b"1302010"], 4, 1),
            Case(&[H, A, B, b"13020200"], 4, 1),
            Case(&[b"110200000001\n", A, B, b"130100"], 4, 1),
            // 17 dwells want a second part.
            Case(&[b"110200000011\n", A, B, SIXTEEN], 5, 1),
            Case(&[b"110200000011\n", A, B, SIXTEEN, b"130101"], 5, 1),
        ],
    )
}

#[test]
fn after_the_end(rt: HostRuntime) -> Result<(), Fail> {
    all_refused(
        &rt,
        rt.alloc(),
        7,
        &[
            Case(&[H, A, B, P, b"\n"], 5, 1),
            Case(&[H, A, B, P, b"0"], 5, 1),
            Case(&[H, A, B, P, b"x"], 5, 1),
            Case(&[H, A, B, P, b"x\n"], 5, 1),
            Case(&[H, A, B, P, b"\r\n"], 5, 1),
            Case(&[H, A, B, P, P], 5, 1),
            Case(&[H, A, B, P, H, A, B, P], 5, 1),
            Case(&[b"110200000010\n", A, B, SIXTEEN, b"130101\n"], 5, 1),
            Case(&[b"110200000012\n", A, B, SIXTEEN, P, b"\n"], 6, 1),
        ],
    )
}
