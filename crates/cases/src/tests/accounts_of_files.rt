// What a file that is read holds, and the account of it.
use crate::tests::*;
use accounts::{Account, bank_account, round_account};
use std::process::Abort;

// Banks, settle, dwells and ticks of a lap, and the lap after which it is certain.
type OfRound = (u8, u16, usize, u32, u32);

// Panel, dwell, gap, dwells in a lap, longest wait and slack.
type OfBank = (u8, u16, u16, usize, u32, u32);

fn of_round(record: &RoundRecord) -> OfRound {
    let told = round_account(record);
    (
        told.banks,
        told.settle,
        told.dwells,
        told.ticks,
        told.certain,
    )
}

fn of_bank(record: &RoundRecord, bank: u8) -> Option<OfBank> {
    let told = bank_account(record, bank)?;
    Some((
        told.panel,
        told.dwell,
        told.gap,
        told.dwells,
        told.longest,
        told.slack,
    ))
}

// A file, its list, and the account of it.
#[derive(Clone, Copy)]
struct Accounted {
    file: &'static [u8],
    list: &'static [u8],
    round: OfRound,
    banks: &'static [OfBank],
}

// Checks what is told of each bank, and that there is no other.
fn banks_told(
    rt: &impl Abort,
    k: usize,
    record: &RoundRecord,
    banks: &[OfBank],
) -> Result<(), Fail> {
    for bank in 0..17u8 {
        assert_eq!(rt;
            of_bank(record, bank),
            banks.get(bank as usize).copied(),
            "{}: {}",
            k,
            bank
        );
    }
    Ok(())
}

fn all_accounted(rt: &impl Abort, cases: &[Accounted]) -> Result<(), Fail> {
    for (k, case) in cases.iter().enumerate() {
        let record = record_of(case.file)?;
        assert_eq!(rt;
            (record.list(), of_round(&record)),
            (case.list, case.round),
            "{}",
            k
        );
        banks_told(rt, k, &record, case.banks)?;
    }
    Ok(())
}

const ACCOUNTS: &[Accounted] = &[
    Accounted {
        file: KEPT,
        list: &[1, 0],
        round: (2, 0, 2, 2, 2),
        banks: &[(0, 1, 1, 1, 1, 0), (0, 1, 10, 1, 1, 9)],
    },
    Accounted {
        file: b"110200000003\n12000000010001\n1201000001000A\n1303000001\n",
        list: &[0, 0, 1],
        round: (2, 0, 3, 3, 2),
        banks: &[(0, 1, 1, 2, 1, 0), (0, 1, 10, 1, 2, 8)],
    },
    Accounted {
        file: FORMER,
        list: &[0, 1],
        round: (2, 3, 2, 8, 2),
        banks: &[(0, 1, 7, 1, 7, 0), (1, 1, 7, 1, 7, 0)],
    },
    // A list in two parts.
    Accounted {
        file: b"110200000012\n12000000010001\n1201000001000A\n131001000100010001000100010001000100\n13020100\n",
        list: &[1, 0, 1, 0, 1, 0, 1, 0, 1, 0, 1, 0, 1, 0, 1, 0, 1, 0],
        round: (2, 0, 18, 18, 2),
        banks: &[(0, 1, 1, 9, 1, 0), (0, 1, 10, 9, 1, 9)],
    },
    // No settling between two banks of one panel.
    Accounted {
        file: b"110200030002\n12000200010001\n12010200010001\n13020001\n",
        list: &[0, 1],
        round: (2, 3, 2, 2, 2),
        banks: &[(2, 1, 1, 1, 1, 0), (2, 1, 1, 1, 1, 0)],
    },
    // A gap that is just as long as the other bank's dwell.
    Accounted {
        file: b"110200000002\n12000000050001\n12010000010005\n13020001\n",
        list: &[0, 1],
        round: (2, 0, 2, 6, 2),
        banks: &[(0, 5, 1, 1, 1, 0), (0, 1, 5, 1, 5, 0)],
    },
    // Two panels with settling.
    Accounted {
        file: b"110400030005\n1200000002000B\n12010000030014\n12020100010014\n12030100040010\n13050001000203\n",
        list: &[0, 1, 0, 2, 3],
        round: (4, 3, 5, 18, 2),
        banks: &[
            (0, 2, 11, 2, 11, 0),
            (0, 3, 20, 1, 15, 5),
            (1, 1, 20, 1, 17, 3),
            (1, 4, 16, 1, 14, 2),
        ],
    },
    // The highest settle, panel, dwell and gap.
    Accounted {
        file: b"110203E80002\n12000303E8FFFD\n1201000001FFFD\n13020001\n",
        list: &[0, 1],
        round: (2, 1000, 2, 3001, 2),
        banks: &[
            (3, 1000, 65533, 1, 2001, 63532),
            (0, 1, 65533, 1, 3000, 62533),
        ],
    },
    // Sixteen banks that wait for one another, each as long as it may.
    Accounted {
        file: b"111000000010\n1200000001000F\n1201000001000F\n1202000001000F\n1203000001000F\n1204000001000F\n1205000001000F\n1206000001000F\n1207000001000F\n1208000001000F\n1209000001000F\n120A000001000F\n120B000001000F\n120C000001000F\n120D000001000F\n120E000001000F\n120F000001000F\n1310000102030405060708090A0B0C0D0E0F\n",
        list: &[0, 1, 2, 3, 4, 5, 6, 7, 8, 9, 10, 11, 12, 13, 14, 15],
        round: (16, 0, 16, 16, 2),
        banks: &[(0, 1, 15, 1, 15, 0); 16],
    },
];

#[test]
fn accounts(rt: HostRuntime) -> Result<(), Fail> {
    all_accounted(&rt, ACCOUNTS)
}

#[test]
fn printed(rt: HostRuntime) -> Result<(), Fail> {
    let record = record_of(KEPT)?;
    let text = format!(in rt.alloc(); "{}", Account { round: &record })?;
    let lines =
        "banks 2\nsettle 0\ndwells 2\nticks 2\nbank 0: panel 0, dwell 1, gap 1, dwells 1, longest wait 1, slack 0\nbank 1: panel 0, dwell 1, gap 10, dwells 1, longest wait 1, slack 9\nkept for ever: certain after lap 2\n";
    assert_eq!(rt; text.as_str(), lines);
    Ok(())
}
