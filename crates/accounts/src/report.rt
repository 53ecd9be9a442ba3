// The account of a round record: what is told of the round and of each bank.
ghost use Rattle.std.specs.Prelude.{◌≡◌, ℕ, ◌<◌, ◌≤◌, length, MatchOption};
ghost use Rattle.rig.specs.Checks.{FirstClosing};
ghost use Rattle.readers.specs.Panelled.{panelled};
ghost use Rattle.rounds.specs.Record.{list_of};
ghost use Rattle.accounts.specs.Account.{LeastSlack, Slack};
ghost use Rattle.accounts.specs.Report.{RoundTold, BankTold};

use crate::account::{dwells_on, lap_ticks, longest_wait, slack};
use readers::PanelledReader;
use rig::check_list;
use rounds::RoundRecord;
use std::fmt;

// A bank, and by how much its gap exceeds its longest wait.
#[derive(Clone, Copy, PartialEq, Eq, Debug)]
pub struct BankSlack {
    pub bank: u8,
    pub slack: u32,
}

// What is told of a round: its banks, the settle time, the dwells and the ticks of a lap,
// and the lap after which it is certain that every gap is kept for ever.
#[derive(Clone, Copy, PartialEq, Eq, Debug)]
pub struct RoundAccount {
    pub banks: u8,
    pub settle: u16,
    pub dwells: usize,
    pub ticks: u32,
    pub certain: u32,
}

// What is told of a bank: what the table says of it, its dwells in a lap,
// the longest wait from one dwell on it to the next over the endless repetition, and by how much its gap exceeds that.
#[derive(Clone, Copy, PartialEq, Eq, Debug)]
pub struct BankAccount {
    pub panel: u8,
    pub dwell: u16,
    pub gap: u16,
    pub dwells: usize,
    pub longest: u32,
    pub slack: u32,
}

// The first lap of the round whose last state covers its first.
fn closing_lap(round: &RoundRecord) -> u32
    ensures { FirstClosing (panelled round.now.table) (list_of round.now) result }
{
    let reader = PanelledReader::new(round.table());
    check_list(&reader, round.list()).unwrap()
}

// The slack of a bank of the round.
fn slack_in(round: &RoundRecord, bank: u8) -> u32
    requires { bank < round.now.table.count }
    ensures { Slack round.now.table (list_of round.now) bank result }
{
    slack(&round.table(), round.list(), bank).unwrap()
}

// The bank of the round's table with the least slack, the lowest number among equals.
pub fn least_slack(round: &RoundRecord) -> BankSlack
    ensures { LeastSlack round.now.table (list_of round.now) round.now.table.count result.bank result.slack }
{
    (0..round.table().count())
        .map(|bank| BankSlack {
            bank,
            slack: slack_in(round, bank),
        })
        .min_by_key(|least| least.slack)
        .unwrap()
}

// The account of a round.
pub fn round_account(round: &RoundRecord) -> RoundAccount
    ensures { RoundTold round.now result }
{
    let table = round.table();
    let list = round.list();
    let ticks = lap_ticks(&table, list).unwrap();
    RoundAccount {
        banks: table.count(),
        settle: table.settle(),
        dwells: list.len(),
        ticks,
        certain: closing_lap(round),
    }
}

// The account of a bank; none where the number is no bank of the round's table.
#[tactic(auto, using(crate::proofs::Served::slack_beyond))]
pub fn bank_account(round: &RoundRecord, bank: u8) -> Option<BankAccount>
    ensures { MatchOption result (round.now.table.count ≤ bank) (λ a. BankTold round.now bank a) }
{
    let table = round.table();
    let list = round.list();
    let found = table.bank(bank as usize)?;
    Some(BankAccount {
        panel: found.panel,
        dwell: found.dwell,
        gap: found.gap,
        dwells: dwells_on(list, bank),
        longest: longest_wait(&table, list, bank).unwrap(),
        slack: slack(&table, list, bank).unwrap(),
    })
}

// The whole account of a round, for printing.
#[derive(Clone, Copy)]
pub struct Account<'a> {
    pub round: &'a RoundRecord,
}

impl fmt::Display for RoundAccount {
    fn fmt<W: fmt::Write>(&self, f: &mut fmt::Formatter<W>) -> fmt::Result {
        writeln!(f, "banks {}", self.banks)?;
        writeln!(f, "settle {}", self.settle)?;
        writeln!(f, "dwells {}", self.dwells)?;
        write!(f, "ticks {}", self.ticks)
    }
}

impl fmt::Display for BankSlack {
    fn fmt<W: fmt::Write>(&self, f: &mut fmt::Formatter<W>) -> fmt::Result {
        write!(f, "least slack {}: bank {}", self.slack, self.bank)
    }
}

impl fmt::Display for BankAccount {
    fn fmt<W: fmt::Write>(&self, f: &mut fmt::Formatter<W>) -> fmt::Result {
        write!(
            f,
            "panel {}, dwell {}, gap {}, dwells {}, longest wait {}, slack {}",
            self.panel, self.dwell, self.gap, self.dwells, self.longest, self.slack
        )
    }
}

impl fmt::Display for Account<'_> {
    fn fmt<W: fmt::Write>(&self, f: &mut fmt::Formatter<W>) -> fmt::Result {
        let told = round_account(self.round);
        writeln!(f, "{told}")?;
        for bank in 0..told.banks {
            if let Some(of_bank) = bank_account(self.round, bank) {
                writeln!(f, "bank {bank}: {of_bank}")?;
            }
        }
        let certain = told.certain;
        writeln!(f, "kept for ever: certain after lap {certain}")
    }
}
