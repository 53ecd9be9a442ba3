// The panelled reader: one reader behind an aerial switch that settles when the panel changes.
ghost use Rattle.std.specs.Prelude.{◌≡◌, ℕ, ◌<◌, true, Decides, nat_eq};
ghost use Rattle.rig.specs.Meaning.{after, lawful};
ghost use Rattle.rig.specs.Guides.{choice};
ghost use Rattle.rig.specs.Orders.{Endless, Order};
ghost use Rattle.rig.specs.Sets.{in_set};
ghost use Rattle.deadlines.specs.Deadlines.{DueFirst, NoneMeets, NoneUntried, deadline, some_overrun};
ghost use Rattle.readers.specs.Panelled.{age, guided_panelled, panel_covers, panel_proper, panelled, panelled_guide, proper_state, settling, state_covers};
ghost use Rattle.readers.specs.Rules.{Covers, Proper, TellsAfter, TellsLawful};
ghost use Rattle.readers.specs.RigLaws.{guide_laws, laws};
ghost use lib.Pointwise.{pointwise};
ghost use Rattle.std.specs.Option.{option_eq};
ghost use Rattle.std.specs.Ordering.{on, eq_of_both};
ghost use Rattle.std.specs.Cmp.Rules.{comparing};
ghost use Rattle.std.proofs.Common.{rules};
ghost use Rattle.std.specs.Cmp as Keys;

use crate::ages::{Ages, age_sum, ages_after, ages_cover, ages_proper, in_time};
use banks::{BankTable, MOST_GAP};
use deadlines::{choose, is_hopeless};
use rig::{GuidedRig, Moves, Rig};
use sheets::{MOST_BANKS, MOST_PANEL};

// The greatest sum of ages of a proper state, and one more for its last panel.
pub(crate) const MOST_STALENESS: u32 = MOST_BANKS as u32 * MOST_GAP as u32 + 1;

// The age of every bank, and the panel of the last dwell, if there was one.
#[derive(Clone, Copy, Eq, Debug)]
pub struct ReaderState {
    ages: Ages,
    last: Option<u8>,
}

// States are equal exactly when they are identical. It is written by hand, since a derived equality has no clause that says so.
impl PartialEq for ReaderState {
    ghost eq = { eq_of_both (on (λ s. s.last) (option_eq nat_eq)) (on (λ s. s.ages) (pointwise nat_eq)) };

    ghost laws = { Keys.partial_equiv_from_equiv (Prim.search (comparing, rules)) };

    fn eq(&self, other: &ReaderState) -> bool
        ensures value { result ≡ eq_of_both (on (λ s. s.last) (option_eq nat_eq)) (on (λ s. s.ages) (pointwise nat_eq)) self.now other.now }
        ensures identical { Decides result (self.now ≡ other.now) }
    {
        self.last == other.last && self.ages == other.ages
    }
}

// The panelled reader of a bank table.
#[derive(Clone, Copy)]
pub struct PanelledReader {
    table: BankTable,
}

impl PanelledReader {
    pub fn new(table: BankTable) -> PanelledReader
        ensures { result.table ≡ table }
    {
        PanelledReader { table }
    }

    pub fn table(&self) -> BankTable
        ensures { result ≡ self.now.table }
    {
        self.table
    }
}

impl Rig for PanelledReader {
    type State = ReaderState;

    ghost means = { λ r. panelled r.table };

    ghost shown = { λ r. laws r.table };

    // Each bank is a move: one whole dwell on it.
    fn moves(&self) -> u8 {
        self.table.count()
    }

    fn rest(&self) -> ReaderState {
        ReaderState {
            ages: [0; MOST_BANKS],
            last: None,
        }
    }

    fn proper(&self, s: &ReaderState) -> bool
        ensures value { result ≡ proper_state self.now.table s.now }
        ensures rule { Decides result (Proper self.now.table s.now) }
    {
        panel_proper(s.last) && ages_proper(&self.table, &s.ages)
    }

    fn equal(&self, a: &ReaderState, b: &ReaderState) -> bool {
        a == b
    }

    fn covers(&self, a: &ReaderState, b: &ReaderState) -> bool
        ensures value { result ≡ state_covers self.now.table a.now b.now }
        ensures rule { Decides result (Covers self.now.table a.now b.now) }
    {
        panel_covers(a.last, b.last) && ages_cover(&self.table, &a.ages, &b.ages)
    }

    fn lawful(&self, s: &ReaderState, j: u8) -> bool
        ensures value { result ≡ lawful (panelled self.now.table) s.now j }
        ensures rule { TellsLawful self.now.table s.now j result }
    {
        self.proper(s)
            && j < self.moves()
            && in_time(
                &self.table,
                &s.ages,
                j,
                settling_before(&self.table, s.last, j),
            )
    }

    fn after(&self, s: &ReaderState, j: u8) -> ReaderState
        ensures value { result ≡ after (panelled self.now.table) s.now j }
        ensures rule { TellsAfter self.now.table s.now j result }
    {
        if !self.lawful(s, j) {
            return self.rest();
        }
        let settling = settling_before(&self.table, s.last, j);
        let ages = ages_after(&self.table, &s.ages, j, settling);
        ReaderState {
            ages,
            last: Some(self.table.at(j as usize).panel),
        }
    }

    fn staleness(&self, s: &ReaderState) -> u32 {
        age_sum(&self.table, &s.ages) + u32::from(s.last.is_some())
    }

    fn ceiling(&self) -> u32 {
        MOST_STALENESS
    }
}

impl GuidedRig for PanelledReader {
    ghost guide = { λ r. panelled_guide r.table };

    ghost guide_shown = { λ r. guide_laws r.table };

    // Whether no order of all banks, each once, meets the deadlines; then no endless lawful order begins in a proper state.
    fn hopeless(&self, s: &ReaderState) -> bool
        ensures value { result ≡ some_overrun self.now.table (deadline self.now.table (age s.now)) }
        ensures never { Decides result (NoneMeets self.now.table (deadline self.now.table (age s.now))) }
        ensures ends { Proper self.now.table s.now → result ≡ true → (o : Order) → Endless (panelled self.now.table) s.now o → ⊥ }
    {
        is_hopeless(&self.table, &s.ages)
    }

    // The untried bank with the least deadline, the lowest number among equals; 0 where no bank is untried (docs/RULES.md).
    fn choose(&self, s: &ReaderState, untried: &Moves) -> u8
        ensures value { result ≡ choice (guided_panelled self.now.table) s.now (in_set untried.now.held) }
        ensures some { (i : ℕ) → i < self.now.table.count → in_set untried.now.held i ≡ true → DueFirst self.now.table.count (deadline self.now.table (age s.now)) (in_set untried.now.held) result }
        ensures none { NoneUntried self.now.table.count (in_set untried.now.held) → result ≡ 0 }
    {
        choose(&self.table, &s.ages, untried)
    }
}

// Whether a last panel is none or a panel.
fn panel_proper(last: Option<u8>) -> bool
    ensures { result ≡ panel_proper last }
{
    last.is_none_or(|p| p <= MOST_PANEL)
}

// Whether the first of two last panels is none or the same as the second.
fn panel_covers(fresh: Option<u8>, stale: Option<u8>) -> bool
    ensures { result ≡ panel_covers fresh stale }
{
    fresh.is_none() || fresh == stale
}

// The settling before a dwell on bank j: the settle time where the panel changes, and 0 on the same panel or at first.
fn settling_before(table: &BankTable, last: Option<u8>, j: u8) -> u16
    ensures { result ≡ settling table.now last j }
{
    last.map_or(0, |p| table.settling(p, j))
}
