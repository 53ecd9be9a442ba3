// A set of moves.
ghost use Rattle.std.specs.Prelude.{◌≡◌, ℕ, false, not, ◌&&◌, ◌||◌, length, if◌then◌else◌, ◌==◌, nat_eq, nat_lt};
ghost use Rattle.rig.specs.Sets.{in_set, most_moves, some_below};

// Moves are numbered from 0, below this.
pub const MOST_MOVES: usize = crate::MOST_MOVES as usize;

#[derive(Clone, Copy)]
pub struct Moves {
    held: [bool; MOST_MOVES],
    ghost places: { length held ≡ most_moves },
}

impl Moves {
    // The set without a move.
    pub fn none() -> Moves
        ensures { (k : ℕ) → in_set result.held k ≡ false }
    {
        Moves {
            held: [false; MOST_MOVES],
        }
    }

    // Whether the move is in the set; a number that is no move is not.
    pub fn holds(&self, j: u8) -> bool
        ensures { result ≡ in_set self.now.held j }
    {
        self.held.get(j as usize).copied().unwrap_or(false)
    }

    // Whether no move is in the set.
    pub fn is_empty(&self) -> bool
        ensures { result ≡ not (some_below most_moves (in_set self.now.held)) }
    {
        self.held == Moves::none().held
    }

    // The set with this move besides; a number that is no move adds nothing.
    pub fn with(&self, j: u8) -> Moves
        ensures { (k : ℕ) → in_set result.held k ≡ (in_set self.now.held k || (k == j && nat_lt k most_moves)) }
    {
        Moves {
            held: self.changed(j, true),
        }
    }

    // The set without this move.
    pub fn without(&self, j: u8) -> Moves
        ensures { (k : ℕ) → in_set result.held k ≡ (in_set self.now.held k && not (k == j)) }
    {
        Moves {
            held: self.changed(j, false),
        }
    }

    // The places of the set with this one at the move, if it is one.
    fn changed(&self, j: u8, held: bool) -> [bool; MOST_MOVES]
        ensures places { length result ≡ most_moves }
        ensures each { (k : ℕ) → in_set result k ≡ (if nat_eq k j && nat_lt k most_moves then held else in_set self.now.held k) }
    {
        let at = j as usize;
        let mut all = self.held;
        if at < MOST_MOVES {
            all[at] = held;
        }
        all
    }
}
