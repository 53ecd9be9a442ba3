// The round that a search has found, along the path.
ghost use Rattle.std.specs.Prelude.{◌≡◌, ◌≤◌, [], ◌∷◌, ◌++◌, length, drop, count_by};
ghost use Rattle.search.specs.Kept.{path_moves};
ghost use Rattle.search.specs.Rows.{on_path};

use crate::row::Row;

// How many of these rows are on the path.
pub(crate) fn path_length<S: Copy + Drop>(rows: &[Row<S>]) -> usize
    ensures { result ≡ count_by on_path rows.now }
{
    rows.iter().filter(|row| row.is_open()).count()
}

// Writes the moves that led to those of these rows that are on the path, and then the last move.
pub(crate) fn write_round<S: Copy + Drop>(rows: &[Row<S>], last: u8, out: &mut [u8])
    requires { length (path_moves rows.now ++ last ∷ []) ≤ length out.old }
    ensures { let round = path_moves rows.now ++ last ∷ [] in out.new ≡ round ++ drop (length round) out.old }
{
    // The place is counted by hand: a loop over a filter, in a generic function, gets no proof.
    let mut at = 0;
    for row in rows {
        if row.is_open() {
            out[at] = row.by;
            at += 1;
        }
    }
    out[at] = last;
}
