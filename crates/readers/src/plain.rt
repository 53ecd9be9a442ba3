// The plain reader: one reader whose aerial needs no settling.
ghost use Rattle.std.specs.Prelude.{◌≡◌, ℕ, ◌<◌, true, Decides, nat_eq};
ghost use Rattle.rig.specs.Meaning.{after, lawful};
ghost use Rattle.rig.specs.Guides.{choice};
ghost use Rattle.rig.specs.Orders.{Endless, Order};
ghost use Rattle.rig.specs.Sets.{in_set};
ghost use Rattle.deadlines.specs.Deadlines.{DueFirst, NoneMeets, NoneUntried, deadline, some_overrun};
ghost use Rattle.readers.specs.Ages.{AgesCover, AgesProper, ages_cover, ages_proper};
ghost use Rattle.readers.specs.Plain.{PlainAfter, PlainLawful, guided_plain, plain, plain_age, plain_guide};
ghost use Rattle.readers.specs.PlainLaws.{plain_guide_laws, plain_laws};
ghost use lib.Pointwise.{pointwise};
ghost use Rattle.std.specs.Ordering.{on};
ghost use Rattle.std.specs.Cmp.Rules.{comparing};
ghost use Rattle.std.proofs.Common.{rules};
ghost use Rattle.std.specs.Cmp as Keys;

use crate::ages::{Ages, age_sum, ages_after, ages_cover, ages_proper, in_time};
use crate::panelled::MOST_STALENESS;
use banks::BankTable;
use deadlines::{choose, is_hopeless};
use rig::{GuidedRig, Moves, Rig};
use sheets::MOST_BANKS;

// The age of every bank.
#[derive(Clone, Copy, Eq, Debug)]
pub struct PlainState {
    ages: Ages,
}

// States are equal exactly when they are identical. It is written by hand, since a derived equality has no clause that says so.
impl PartialEq for PlainState {
    ghost eq = { on (λ s. s.ages) (pointwise nat_eq) };

    ghost laws = { Keys.partial_equiv_from_equiv (Prim.search (comparing, rules)) };

    fn eq(&self, other: &PlainState) -> bool
        ensures value { result ≡ on (λ s. s.ages) (pointwise nat_eq) self.now other.now }
        ensures identical { Decides result (self.now ≡ other.now) }
    {
        self.ages == other.ages
    }
}

// The plain reader of a bank table.
// It is no case of one generic reader with `PanelledReader`: its rules, `PlainLawful` and `PlainAfter`, speak of no settling, and
// `TellsLawful` and `TellsAfter` do, so a trait would need a member and a law for each clause below, to share these one-line bodies.
#[derive(Clone, Copy)]
pub struct PlainReader {
    table: BankTable,
}

impl PlainReader {
    pub fn new(table: BankTable) -> PlainReader
        ensures { result.table ≡ table }
    {
        PlainReader { table }
    }
}

impl Rig for PlainReader {
    type State = PlainState;

    ghost means = { λ r. plain r.table };

    ghost shown = { λ r. plain_laws r.table };

    // Each bank is a move: one whole dwell on it.
    fn moves(&self) -> u8 {
        self.table.count()
    }

    fn rest(&self) -> PlainState {
        PlainState {
            ages: [0; MOST_BANKS],
        }
    }

    fn proper(&self, s: &PlainState) -> bool
        ensures value { result ≡ ages_proper self.now.table (plain_age s.now) }
        ensures rule { Decides result (AgesProper self.now.table (plain_age s.now)) }
    {
        ages_proper(&self.table, &s.ages)
    }

    fn equal(&self, a: &PlainState, b: &PlainState) -> bool {
        a == b
    }

    fn covers(&self, a: &PlainState, b: &PlainState) -> bool
        ensures value { result ≡ ages_cover self.now.table (plain_age a.now) (plain_age b.now) }
        ensures rule { Decides result (AgesCover self.now.table (plain_age a.now) (plain_age b.now)) }
    {
        ages_cover(&self.table, &a.ages, &b.ages)
    }

    fn lawful(&self, s: &PlainState, j: u8) -> bool
        ensures value { result ≡ lawful (plain self.now.table) s.now j }
        ensures rule { Decides result (PlainLawful self.now.table s.now j) }
    {
        self.proper(s) && j < self.moves() && in_time(&self.table, &s.ages, j, 0)
    }

    fn after(&self, s: &PlainState, j: u8) -> PlainState
        ensures value { result ≡ after (plain self.now.table) s.now j }
        ensures rule { PlainAfter self.now.table s.now j result }
    {
        if !self.lawful(s, j) {
            return self.rest();
        }
        let ages = ages_after(&self.table, &s.ages, j, 0);
        PlainState { ages }
    }

    fn staleness(&self, s: &PlainState) -> u32 {
        age_sum(&self.table, &s.ages)
    }

    fn ceiling(&self) -> u32 {
        MOST_STALENESS
    }
}

impl GuidedRig for PlainReader {
    ghost guide = { λ r. plain_guide r.table };

    ghost guide_shown = { λ r. plain_guide_laws r.table };

    // Whether no order of all banks, each once, meets the deadlines; then no endless lawful order begins in a proper state.
    fn hopeless(&self, s: &PlainState) -> bool
        ensures value { result ≡ some_overrun self.now.table (deadline self.now.table (plain_age s.now)) }
        ensures never { Decides result (NoneMeets self.now.table (deadline self.now.table (plain_age s.now))) }
        ensures ends { AgesProper self.now.table (plain_age s.now) → result ≡ true → (o : Order) → Endless (plain self.now.table) s.now o → ⊥ }
    {
        is_hopeless(&self.table, &s.ages)
    }

    // The untried bank with the least deadline, the lowest number among equals; 0 where no bank is untried (docs/RULES.md).
    fn choose(&self, s: &PlainState, untried: &Moves) -> u8
        ensures value { result ≡ choice (guided_plain self.now.table) s.now (in_set untried.now.held) }
        ensures some { (i : ℕ) → i < self.now.table.count → in_set untried.now.held i ≡ true → DueFirst self.now.table.count (deadline self.now.table (plain_age s.now)) (in_set untried.now.held) result }
        ensures none { NoneUntried self.now.table.count (in_set untried.now.held) → result ≡ 0 }
    {
        choose(&self.table, &s.ages, untried)
    }
}
