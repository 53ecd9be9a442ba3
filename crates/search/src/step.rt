// One step of a search: what to do next, without doing it.
ghost use Rattle.std.specs.Prelude.{◌≡◌, ℕ, ◌≤◌, true, length, Some, MatchOption, nat_lt};
ghost use Rattle.rig.specs.Guides.{guided};
ghost use Rattle.rig.specs.Sets.{in_set};
ghost use Rattle.search.specs.Grants.{verdict_of};
ghost use Rattle.search.specs.Rows.{Latest, on_path, untried_in, usable as usable-of};
ghost use Rattle.search.specs.Steps.{Dead, Next, Stepped};

use crate::row::{Row, lowest};
use crate::scan::{is_dead, latest_covered, path_end};
use rig::{GuidedRig, Moves, Rig, Verdict};

// The most rows that a book uses.
pub const MOST_ROWS: usize = 65536;

// What a search has come to.
#[derive(Clone, Copy)]
pub enum Standing {
    Open,
    NoRound,
    Full,
    // The round leaves the state of row `from`, goes along the path, and ends with the move `last`.
    Round { from: usize, last: u8 },
}

impl From<Standing> for Verdict {
    ghost from_gives = { λ s v. v ≡ verdict_of s };

    fn from(standing: Standing) -> Verdict {
        match standing {
            Standing::Open => Verdict::Open,
            Standing::NoRound => Verdict::NoRound,
            Standing::Full => Verdict::Full,
            Standing::Round { from: _, last: _ } => Verdict::Round,
        }
    }
}

// What to do next.
#[derive(Drop)]
pub(crate) enum Step<S> {
    // This row has one untried move less.
    Settle { at: usize, row: Row<S> },
    // The next free row is taken.
    Take { row: Row<S> },
    // The grant ends.
    End { standing: Standing },
}

// How many rows of a table a book uses.
pub(crate) fn usable(rows: usize) -> usize
    ensures { result ≡ usable-of rows }
{
    rows.min(MOST_ROWS)
}

// The set of all moves of a rig.
fn all_moves<R: Rig>(rig: &R) -> Moves
    ensures all { (k : ℕ) → in_set result.held k ≡ nat_lt k (R.means rig.now).moves }
    ensures some { in_set result.held 0 ≡ true }
{
    let mut all = Moves::none();
    for j in 0..rig.moves() {
        all = all.with(j);
    }
    all
}

// The rig's choice among the untried moves of a row; where that is none of them, the lowest.
fn chosen<R: GuidedRig>(rig: &R, row: &Row<R::State>) -> u8
    requires { on_path row.now ≡ true }
    ensures { untried_in row.now result ≡ true }
{
    let pick = rig.choose(&row.state, &row.untried);
    if row.untried.holds(pick) {
        return pick;
    }
    lowest(&row.untried).unwrap_or(0)
}

// A search as it stands: over a rig, in a table of which so many rows are taken, with so many visits left.
#[derive(Drop)]
pub(crate) struct Search<'a, R: GuidedRig> {
    pub(crate) rig: &'a R,
    pub(crate) rows: &'a [Row<R::State>],
    pub(crate) taken: usize,
    pub(crate) left: u32,
    ghost within: { taken ≤ usable-of (length rows.now) },
}

impl<R: GuidedRig> Search<'_, R> {
    // Enters a state, to which a move leads; none where the state is dead.
    fn enter(&self, state: R::State, by: u8) -> Option<Step<R::State>>
        requires next { Next (guided (R.means self.now.rig.now) (R.guide self.now.rig.now)) self.now.rows.now self.now.taken by state }
        requires proper { (R.means self.now.rig.now).proper state ≡ true }
        ensures { MatchOption result (Dead (guided (R.means self.now.rig.now) (R.guide self.now.rig.now)) self.now.rows.now self.now.taken state) (λ x. Stepped (guided (R.means self.now.rig.now) (R.guide self.now.rig.now)) self.now.rows.now self.now.taken self.now.left x) }
    {
        if self.rig.hopeless(&state) {
            return None;
        }
        let taken = &self.rows[..self.taken];
        if let Some(from) = latest_covered(self.rig, taken, &state) {
            return Some(Step::End {
                standing: Standing::Round { from, last: by },
            });
        }
        if is_dead(self.rig, taken, &state) {
            return None;
        }
        if self.taken >= usable(self.rows.len()) {
            return Some(Step::End {
                standing: Standing::Full,
            });
        }
        if self.left == 0 {
            return Some(Step::End {
                standing: Standing::Open,
            });
        }
        let untried = all_moves(self.rig);
        Some(Step::Take {
            row: Row { state, by, untried },
        })
    }

    // A fresh book enters rest.
    fn first_step(&self) -> Step<R::State>
        requires { self.now.taken ≡ 0 }
        ensures { Stepped (guided (R.means self.now.rig.now) (R.guide self.now.rig.now)) self.now.rows.now self.now.taken self.now.left result }
    {
        self.enter(self.rig.rest(), 0).unwrap_or(Step::End {
            standing: Standing::NoRound,
        })
    }

    // Tries the chosen move at the end of the path.
    fn try_move(&self, at: usize) -> Step<R::State>
        requires { Latest on_path self.now.rows.now self.now.taken (Some at) }
        ensures { Stepped (guided (R.means self.now.rig.now) (R.guide self.now.rig.now)) self.now.rows.now self.now.taken self.now.left result }
    {
        let row = self.rows[at];
        let by = chosen(self.rig, &row);
        let settled = Step::Settle {
            at,
            row: Row {
                state: row.state,
                by: row.by,
                untried: row.untried.without(by),
            },
        };
        if !self.rig.lawful(&row.state, by) {
            return settled;
        }
        self.enter(self.rig.after(&row.state, by), by)
            .unwrap_or(settled)
    }

    // What an open book does next.
    pub(crate) fn next_step(&self) -> Step<R::State>
        ensures { Stepped (guided (R.means self.now.rig.now) (R.guide self.now.rig.now)) self.now.rows.now self.now.taken self.now.left result }
    {
        if self.taken == 0 {
            return self.first_step();
        }
        match path_end(&self.rows[..self.taken]) {
            Some(at) => self.try_move(at),
            None => Step::End {
                standing: Standing::NoRound,
            },
        }
    }
}
