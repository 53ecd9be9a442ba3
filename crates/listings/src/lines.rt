// The lines of a stored round.
ghost use Rattle.std.specs.Prelude.{◌≡◌, ◌*◌, ◌<◌, ◌≤◌, length, take, IfOk};
ghost use Rattle.banks.specs.Stored.{head_line, bank_line, bank_lines, most_dwells};
ghost use Rattle.rounds.specs.Parts.{part_line, part_lines, parts_of};
ghost use Rattle.rounds.specs.Record.{list_of};
ghost use Rattle.rounds.specs.Stored.{round_text};
ghost use Rattle.listings.specs.Answers.{stored_text, ReadsBack};
ghost use Rattle.listings.specs.Writing.{Put, Wrote};

use crate::fields::{Field, put_fields, put_line};
use crate::listed::{Listed, Listing, put_all, write};
use crate::short::TooShort;
use banks::{Bank, BankTable};
use frames::Kind;
use rounds::{PART_SIZE, RoundRecord, parts_of};

// The bytes of a head line, of a bank's line, of a part's line without its banks, and of each of these.
const HEAD_LENGTH: usize = 13;

const BANK_LENGTH: usize = 15;

const PART_LENGTH: usize = 5;

const DWELL_LENGTH: usize = 2;

// The head line.
fn put_head(table: &BankTable, dwells: usize, out: &mut [u8]) -> usize
    requires { 13 ≤ length out.old }
    ensures { Put (head_line table.now.count table.now.settle dwells) out.old out.new result }
{
    put_fields(
        &[
            Field(2, Kind::RoundHead as usize),
            Field(2, table.count() as usize),
            Field(4, table.settle() as usize),
            Field(4, dwells),
        ],
        out,
    )
}

// The line of a bank with this number.
#[derive(Clone, Copy)]
struct BankLine(usize, Bank);

impl Listed for BankLine {
    ghost text = { λ l. bank_line l.0 l.1 };

    fn put(&self, out: &mut [u8]) -> usize {
        let BankLine(i, bank) = *self;
        put_fields(
            &[
                Field(2, Kind::RoundBank as usize),
                Field(2, i),
                Field(2, bank.panel as usize),
                Field(4, bank.dwell as usize),
                Field(4, bank.gap as usize),
            ],
            out,
        )
    }
}

// The line of one part of a list.
#[derive(Clone, Copy)]
struct Part<'a>(&'a [u8]);

impl Listed for Part<'_> {
    ghost text = { λ p. part_line p.0.now };

    fn put(&self, out: &mut [u8]) -> usize {
        let banks = self.0;
        let head = [Field(2, Kind::RoundPart as usize), Field(2, banks.len())];
        let numbers = banks.iter().map(|bank| Field(2, *bank as usize));
        put_line(head.iter().copied().chain(numbers), out)
    }
}

// The lines of all banks of a table.
fn put_banks(table: &BankTable, out: &mut [u8]) -> usize
    requires { 15 * table.now.count ≤ length out.old }
    ensures { Put (bank_lines table.now.banks table.now.count) out.old out.new result }
{
    let numbers = 0..table.count() as usize;
    put_all(numbers.map(|i| BankLine(i, table.at(i))), out)
}

// The lines of all parts of a list.
fn put_parts(list: &[u8], out: &mut [u8]) -> usize
    requires { length (part_lines list.now (parts_of (length list.now))) ≤ length out.old }
    ensures { Put (part_lines list.now (parts_of (length list.now))) out.old out.new result }
{
    put_all(list.chunks(PART_SIZE).map(Part), out)
}

// A stored round: the table and the list of a record.
#[derive(Clone, Copy)]
pub(crate) struct StoredRound<'a> {
    pub(crate) table: BankTable,
    pub(crate) list: &'a [u8],
    ghost few: { length list.now ≤ most_dwells },
}

impl<'a> StoredRound<'a> {
    pub(crate) fn of(round: &'a RoundRecord) -> StoredRound<'a>
        ensures table { result.table ≡ round.now.table }
        ensures list { result.list.now ≡ list_of round.now }
        ensures some { 0 < length (list_of round.now) }
    {
        StoredRound {
            table: round.table(),
            list: round.list(),
        }
    }
}

impl Listed for StoredRound<'_> {
    ghost text = { λ r. round_text r.table r.list.now };

    fn put(&self, out: &mut [u8]) -> usize {
        let mut at = put_head(&self.table, self.list.len(), out);
        at += put_banks(&self.table, &mut out[at..]);
        at + put_parts(self.list, &mut out[at..])
    }
}

impl Listing for StoredRound<'_> {
    fn needed(&self) -> usize {
        let banks = self.table.count() as usize;
        let dwells = self.list.len();
        HEAD_LENGTH + BANK_LENGTH * banks + PART_LENGTH * parts_of(dwells) + DWELL_LENGTH * dwells
    }
}

// Writes the stored round of a record; where there is no room, nothing.
pub fn write_round(round: &RoundRecord, out: &mut [u8]) -> Result<usize, TooShort>
    ensures reply { Wrote (stored_text round.now) out.old out.new result }
    ensures read { IfOk result (λ n. ReadsBack (take n out.new) round.now) }
{
    write(&StoredRound::of(round), out)
}
