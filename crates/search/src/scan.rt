// Scans over rows taken. Each has a contract of its own, so that a faster one can take its place.
ghost use Rattle.std.specs.Prelude.{◌≡◌, length, Decides};
ghost use Rattle.search.specs.Rows.{DeadHolds, Latest, covered_by, on_path};

use crate::row::Row;
use rig::Rig;

// The end of the path: the latest row that has an untried move.
pub(crate) fn path_end<S: Copy + Drop>(taken: &[Row<S>]) -> Option<usize>
    ensures { Latest on_path taken.now (length taken.now) result }
{
    taken.iter().rposition(|row| row.is_open())
}

// The latest row on the path whose state is covered by this one.
pub(crate) fn latest_covered<R: Rig>(
    rig: &R,
    taken: &[Row<R::State>],
    state: &R::State,
) -> Option<usize>
    ensures { Latest (covered_by (R.means rig.now) state.now) taken.now (length taken.now) result }
{
    taken
        .iter()
        .rposition(|row| row.is_open() && rig.covers(state, &row.state))
}

// Whether a row that is left as dead holds the state.
pub(crate) fn is_dead<R: Rig>(rig: &R, taken: &[Row<R::State>], state: &R::State) -> bool
    ensures { Decides result (DeadHolds taken.now (length taken.now) state.now) }
{
    taken
        .iter()
        .any(|row| !row.is_open() && rig.equal(&row.state, state))
}
