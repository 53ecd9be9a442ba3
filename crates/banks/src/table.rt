// A bank table: what the reader has to serve. The type carries the limits, so no table outside them exists.
ghost use Rattle.std.specs.Prelude.{◌≡◌, ℕ, ◌-◌, ◌<◌, ◌≤◌, ◌∷◌, length, replicate, Decides, MatchOption, nat_eq};
ghost use Rattle.banks.specs.Identity.{bank_eq, bank_eq_equiv};
ghost use lib.Pointwise.{pointwise};
ghost use Rattle.std.specs.Ordering.{on, eq_of_both};
ghost use Rattle.banks.specs.Limits.{WithinLimits, bank_at, most_dwell, most_gap, no_bank, stock_bank};
ghost use Rattle.sheets.specs.Limits.{fewest_banks, most_banks, most_panel, most_settle};
ghost use Rattle.std.specs.Cmp.Rules.{comparing};
ghost use Rattle.std.proofs.Common.{rules, arith};
ghost use Rattle.std.specs.Cmp as Keys;

use sheets::MOST_BANKS;

// The longest dwell and gap in ticks.
pub const MOST_DWELL: u16 = 1000;

pub const MOST_GAP: u16 = 65533;

// One feeder bank: the panel of its aerial, the ticks of one dwell on it, and the longest wait that it bears.
#[derive(Clone, Copy, Eq, Default, Debug)]
pub struct Bank {
    pub panel: u8,
    pub dwell: u16,
    pub gap: u16,
}

// Places without a bank hold zeros. The array stands beside the number of banks, since a table is copied, and a list of a fixed room
// is not.
#[derive(Clone, Copy)]
pub struct BankTable {
    count: u8,
    settle: u16,
    banks: [Bank; MOST_BANKS],
    ghost places: { length banks ≡ most_banks },
    ghost enough: { fewest_banks ≤ count },
    ghost few: { count ≤ most_banks },
    ghost settles: { settle ≤ most_settle },
    ghost panels: { (i : ℕ) → i < count → (bank_at banks i).panel ≤ most_panel },
    ghost dwells: { (i : ℕ) → i < count → (1 ≤ (bank_at banks i).dwell) × ((bank_at banks i).dwell ≤ most_dwell) },
    ghost gaps: { (i : ℕ) → i < count → (1 ≤ (bank_at banks i).gap) × ((bank_at banks i).gap ≤ most_gap) },
    ghost unused: { (i : ℕ) → count ≤ i → ((bank_at banks i).panel ≡ 0) × ((bank_at banks i).dwell ≡ 0) × ((bank_at banks i).gap ≡ 0) },
}

impl Bank {
    // Whether two banks are identical, which is what `==` tells.
    pub fn is_identical(&self, other: &Bank) -> bool
        ensures { Decides result (self.now ≡ other.now) }
    {
        self == other
    }
}

// Banks are equal exactly when they are identical. It is written by hand, since a derived equality has no clause that says so.
impl PartialEq for Bank {
    ghost eq = { bank_eq };

    ghost laws = { Keys.partial_equiv_from_equiv (Prim.search (comparing, rules)) };

    fn eq(&self, other: &Bank) -> bool
        ensures value { result ≡ bank_eq self.now other.now }
        ensures identical { Decides result (self.now ≡ other.now) }
    {
        self.panel == other.panel && self.dwell == other.dwell && self.gap == other.gap
    }
}

// Tables are equal exactly when they are identical. It is written by hand, since the check does not find that
// of a derived equality of arrays.
impl PartialEq for BankTable {
    ghost eq = { eq_of_both (eq_of_both (on (λ t. t.count) nat_eq) (on (λ t. t.settle) nat_eq)) (on (λ t. t.banks) (pointwise bank_eq)) };

    ghost laws = { Keys.partial_equiv_from_equiv (Prim.search (comparing, rules, bank_eq_equiv)) };

    fn eq(&self, other: &BankTable) -> bool
        ensures value { result ≡ eq_of_both (eq_of_both (on (λ t. t.count) nat_eq) (on (λ t. t.settle) nat_eq)) (on (λ t. t.banks) (pointwise bank_eq)) self.now other.now }
        ensures identical { Decides result (self.now ≡ other.now) }
    {
        if self.count != other.count || self.settle != other.settle {
            return false;
        }
        self.banks == other.banks
    }
}

impl Eq for BankTable {
    ghost laws = { Prim.search (comparing, rules, bank_eq_equiv) };
}

impl BankTable {
    // Two banks with dwell 1, gap 1 and panel 0, and no settling: the table of the stock round.
    pub fn stock() -> BankTable
        ensures count { result.count ≡ 2 }
        ensures settle { result.settle ≡ 0 }
        ensures banks { result.banks ≡ stock_bank ∷ stock_bank ∷ replicate (most_banks - 2) no_bank }
    {
        let bank = Bank {
            panel: 0,
            dwell: 1,
            gap: 1,
        };
        let mut banks = [Bank::default(); MOST_BANKS];
        banks[0] = bank;
        banks[1] = bank;
        BankTable {
            count: 2,
            settle: 0,
            banks,
        }
    }

    // How many banks there are; they are numbered from 0.
    pub fn count(&self) -> u8
        ensures { result ≡ self.now.count }
    {
        self.count
    }

    // The ticks of settling where the panel changes.
    pub fn settle(&self) -> u16
        ensures { result ≡ self.now.settle }
    {
        self.settle
    }

    // The bank with this number, if there is one.
    pub fn bank(&self, i: usize) -> Option<Bank>
        ensures { MatchOption result (self.now.count ≤ i) (λ b. (i < self.now.count) × (b ≡ bank_at self.now.banks i)) }
    {
        self.banks[..self.count as usize].get(i).copied()
    }

    // What stands at a place: a bank, or zeros behind the last bank.
    pub fn at(&self, i: usize) -> Bank
        ensures { result ≡ bank_at self.now.banks i }
    {
        self.banks.get(i).copied().unwrap_or_default()
    }

    // The table of numbers that are within the limits.
    pub(crate) fn of(count: u8, settle: u16, banks: [Bank; MOST_BANKS]) -> BankTable
        requires { WithinLimits count settle banks }
        ensures count { result.count ≡ count }
        ensures settle { result.settle ≡ settle }
        ensures banks { result.banks ≡ banks }
    {
        BankTable {
            count,
            settle,
            banks,
        }
    }
}
