// Lists of banks for a record, and for the checker on the panelled reader. The banks have dwells 1 and 1, gaps 1 and 10.
use crate::tests::*;
use readers::PanelledReader;
use rig::{Unfit, check_list};
use std::process::Abort;

// A list, and its refusal by number, lap and position. The number is 0 where it is accepted: the lap is then the one after which it is.
#[derive(Clone, Copy)]
struct Listed(&'static [u8], (u8, u32, usize));

// A long list, what a record tells of it, and what the checker does.
#[derive(Clone, Copy)]
struct Long(Repeated, (u8, u32, usize), (u8, u32, usize));

fn told_of_unfit(unfit: &Unfit) -> (u8, u32, usize) {
    let told = unfit.told();
    (told.number, told.lap, told.position)
}

// Whether a record tells this of the list: it then holds the list, or what it held before.
fn filled_so(list: &[u8], told: (u8, u32, usize)) -> Result<bool, FileFault> {
    let table = record_of(KEPT)?.table();
    let mut record = record_of(FORMER)?;
    let former = record.table();
    Ok(match record.fill(table, list) {
        Ok(()) => told.0 == 0 && holds(&record, &table, list),
        Err(unfit) => told_of_unfit(&unfit) == told && holds(&record, &former, FORMER_LIST),
    })
}

// What the checker tells of the list.
fn checked(list: &[u8]) -> Result<(u8, u32, usize), FileFault> {
    let reader = PanelledReader::new(record_of(KEPT)?.table());
    Ok(match check_list(&reader, list) {
        Ok(lap) => (0, lap, 0),
        Err(unfit) => told_of_unfit(&unfit),
    })
}

fn all_listed(rt: &impl Abort, cases: &[Listed]) -> Result<(), Fail> {
    for (k, case) in cases.iter().enumerate() {
        let Listed(list, told) = *case;
        assert!(rt; filled_so(list, told)?, "{}", k);
        assert_eq!(rt; checked(list)?, told, "{}", k);
    }
    Ok(())
}

fn long_told(rt: &impl Abort, heap: Global, k: usize, case: &Long) -> Result<(), Fail> {
    let Long(of, record, checker) = *case;
    let list = bytes_of(heap, &of)?;
    assert!(rt; filled_so(list.as_slice(), record)?, "{}", k);
    assert_eq!(rt; checked(list.as_slice())?, checker, "{}", k);
    Ok(())
}

fn all_long(rt: &impl Abort, heap: Global, cases: &[Long]) -> Result<(), Fail> {
    for (k, case) in cases.iter().enumerate() {
        long_told(rt, heap, k, case)?;
    }
    Ok(())
}

#[test]
fn short_lists(rt: HostRuntime) -> Result<(), Fail> {
    all_listed(
        &rt,
        &[
            Listed(&[], (10, 0, 0)),
            Listed(&[2], (10, 0, 0)),
            Listed(&[255], (10, 0, 0)),
            Listed(&[0, 2, 7], (10, 0, 1)),
            // Also behind an unlawful move.
            Listed(&[1, 1, 0, 2], (10, 0, 3)),
            Listed(&[0], (11, 11, 0)),
            Listed(&[1], (11, 2, 0)),
            Listed(&[1, 1, 0], (11, 1, 1)),
            Listed(&[0, 1, 1], (11, 1, 2)),
            Listed(&[1, 0, 1], (11, 2, 0)),
            Listed(&[0, 0, 0, 0], (11, 3, 2)),
            Listed(&[1, 0], (0, 2, 0)),
            Listed(&[0, 0, 1], (0, 2, 0)),
            Listed(&[0, 0, 0, 0, 0, 0, 0, 0, 0, 0, 1], (0, 2, 0)),
            Listed(&[0, 0, 0, 0, 0, 0, 0, 0, 0, 0, 0, 1], (11, 1, 10)),
        ],
    )
}

const LONG_LISTS: &[Long] = &[
    Long(Repeated(&[], &[1, 0], 2048, &[]), (0, 2, 0), (0, 2, 0)),
    Long(Repeated(&[], &[1, 0], 2048, &[0]), (10, 0, 4096), (0, 2, 0)),
    Long(Repeated(&[], &[9], 4096, &[]), (10, 0, 0), (10, 0, 0)),
    Long(Repeated(&[], &[9], 4097, &[]), (10, 0, 4096), (10, 0, 0)),
];

#[test]
fn long_lists(rt: HostRuntime) -> Result<(), Fail> {
    all_long(&rt, rt.alloc(), LONG_LISTS)
}
