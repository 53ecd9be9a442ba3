// A row of the table that a search works in.
ghost use Rattle.std.specs.Prelude.{◌≡◌, ℕ, false};
ghost use Rattle.rig.specs.Sets.{in_set};
ghost use Rattle.search.specs.Rows.{Lowest, on_path, untried_in};

use rig::{MOST_MOVES, Moves};

// A row holds one state, the move that led to it, and the moves that are yet untried in it.
#[derive(Clone, Copy)]
pub struct Row<S> {
    pub(crate) state: S,
    pub(crate) by: u8,
    pub(crate) untried: Moves,
}

// The lowest move of a set.
pub(crate) fn lowest(moves: &Moves) -> Option<u8>
    ensures { Lowest (in_set moves.now.held) result }
{
    (0..MOST_MOVES).find(|j| moves.holds(*j))
}

impl<S: Copy + Drop> Row<S> {
    // A row for a table, with any state in it: a book that is made over the table takes it as free.
    pub fn new(state: S) -> Row<S>
        ensures held { result.state ≡ state }
        ensures led { result.by ≡ 0 }
        ensures tried { (j : ℕ) → untried_in result j ≡ false }
    {
        Row {
            state,
            by: 0,
            untried: Moves::none(),
        }
    }

    // Whether a move is untried in the row.
    pub(crate) fn is_open(&self) -> bool
        ensures { result ≡ on_path self.now }
    {
        !self.untried.is_empty()
    }
}
