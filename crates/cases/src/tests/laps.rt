// Files whose lines are all good, and whose lists are not lawful for ever: 11 at the last line.
use crate::tests::*;
use std::process::Abort;

// A file, its last line, and lap and position of its first unlawful move.
#[derive(Clone, Copy)]
struct Stopped(&'static [&'static [u8]], u32, u32, usize);

fn all_stopped(rt: &impl Abort, heap: Global, cases: &[Stopped]) -> Result<(), Fail> {
    for (k, case) in cases.iter().enumerate() {
        let Stopped(file, line, lap, position) = *case;
        let expected = Refusal {
            number: 11,
            line,
            column: 1,
            lap,
            position,
            length: 0,
        };
        assert_eq!(rt; told_of(rt, heap, file)?, Some(expected), "{}", k);
    }
    Ok(())
}

#[test]
fn not_lawful_for_ever(rt: HostRuntime) -> Result<(), Fail> {
    all_stopped(
        &rt,
        rt.alloc(),
        &[
            Stopped(&[b"110200000001\n", A, B, b"130100\n"], 4, 11, 0),
            Stopped(&[b"110200000003\n", A, B, b"1303010100\n"], 4, 1, 1),
            Stopped(
                &[b"110200000001\n", A, b"1201000001FFFD\n", b"130100\n"],
                4,
                65534,
                0,
            ),
            // Settling at the seam, before the first dwell and before the second one.
            Stopped(
                &[b"110200030002\n12000000010006\n12010100010006\n13020001\n"],
                4,
                2,
                0,
            ),
            Stopped(
                &[b"110200030002\n12000000010007\n12010100010006\n13020001\n"],
                4,
                2,
                1,
            ),
            // The other bank waits too long while this dwell lasts.
            Stopped(
                &[b"110200000002\n12000000050001\n12010000010004\n13020001\n"],
                4,
                1,
                0,
            ),
            // Laps of two parts: at the seam, and in the second part.
            Stopped(&[b"110200000011\n", A, B, SIXTEEN, b"130101\n"], 5, 2, 0),
            Stopped(
                &[
                    b"110200000011\n",
                    A,
                    B,
                    b"131001000100010001000100010001000001\n130101\n",
                ],
                5,
                1,
                16,
            ),
            // Sixteen banks that wait for one another, each a tick too long.
            Stopped(
                &[
                    b"111000000010\n",
                    b"1200000001000E\n",
                    b"1201000001000E\n",
                    b"1202000001000E\n",
                    b"1203000001000E\n",
                    b"1204000001000E\n",
                    b"1205000001000E\n",
                    b"1206000001000E\n",
                    b"1207000001000E\n",
                    b"1208000001000E\n",
                    b"1209000001000E\n",
                    b"120A000001000E\n",
                    b"120B000001000E\n",
                    b"120C000001000E\n",
                    b"120D000001000E\n",
                    b"120E000001000E\n",
                    b"120F000001000E\n",
                    b"1310000102030405060708090A0B0C0D0E0F\n",
                ],
                18,
                1,
                14,
            ),
            // Before what stands after the end.
            Stopped(&[b"110200000001\n", A, B, b"130100\n", b"x"], 4, 11, 0),
            Stopped(&[b"110200000001\n", A, B, b"130100\n", b"\n"], 4, 11, 0),
            Stopped(&[b"110200000001\n", A, B, b"130100\n", P], 4, 11, 0),
        ],
    )
}
