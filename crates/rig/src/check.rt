// The checker of rounds, over any rig.
ghost use Rattle.std.specs.Prelude.{◌≡◌, ℕ, ◌+◌, ◌*◌, ◌<◌, ◌≤◌, true, false, length, is_ok, Decides, MatchOption, MatchResult};
ghost use Rattle.rig.specs.Meaning.{Meaning, lawful};
ghost use Rattle.rig.specs.Orders.{LawfulForEver};
ghost use Rattle.rig.specs.Checks.{told, Checked, FirstNoMove, OnlyMoves, LapRan, LapStopped};

use crate::Rig;
use refusals::{Refusal, RefusalNumber};

// Why a list of moves is refused.
#[derive(Clone, Copy, PartialEq, Eq, Debug)]
pub enum Unfit {
    // The list is empty, or the number at this position is no move.
    NoMove { position: usize },
    // The first unlawful move of the endless repetition: laps count from 1, positions from 0.
    Unlawful { lap: u32, position: usize },
}

impl Unfit {
    // The refusal's number and values.
    pub fn told(&self) -> Refusal
        ensures { result ≡ told self.now }
    {
        Refusal::from(*self)
    }
}

impl From<Unfit> for Refusal {
    ghost from_gives = { λ e r. r ≡ told e };

    fn from(e: Unfit) -> Refusal {
        match e {
            Unfit::NoMove { position } => {
                let number = RefusalNumber::NoMove as u8;
                Refusal::in_list(number, 0, position)
            }
            Unfit::Unlawful { lap, position } => {
                let number = RefusalNumber::NotLawful as u8;
                Refusal::in_list(number, lap, position)
            }
        }
    }
}

// The position of the first number of the list that is not below `moves`; 0 where the list is empty (docs/REFUSALS.md).
fn first_no_move(moves: u8, list: &[u8]) -> Option<usize>
    ensures { MatchOption result (OnlyMoves moves list.now) (λ p. FirstNoMove moves list.now p) }
{
    if list.is_empty() {
        return Some(0);
    }
    list.iter().position(|j| *j >= moves)
}

// One lap from a state: the state after it, or the position of the first unlawful move.
fn run_lap<R: Rig>(rig: &R, from: R::State, list: &[u8]) -> Result<R::State, usize>
    ensures { MatchResult result (λ s. LapRan (R.means rig.now) from list.now s) (λ p. LapStopped (R.means rig.now) from list.now p) }
{
    let mut s = from;
    for (k, j) in list.iter().enumerate() {
        if !rig.lawful(&s, *j) {
            return Err(k);
        }
        s = rig.after(&s, *j);
    }
    Ok(s)
}

// Goes lap by lap from rest. Accepts after the first lap whose last state covers its first, and tells that lap;
// stops at the first number that is no move, or else at the first unlawful move.
pub fn check_list<R: Rig>(rig: &R, list: &[u8]) -> Result<u32, Unfit>
    ensures reply { Checked (R.means rig.now) list.now result }
    ensures exact { Decides (is_ok result) (LawfulForEver (R.means rig.now) list.now) }
{
    if let Some(position) = first_no_move(rig.moves(), list) {
        return Err(Unfit::NoMove { position });
    }
    let mut first = rig.rest();
    // A loop with a count: a `for` over laps without an end is not proved to end.
    let mut lap = 1u32;
    loop {
        let last = run_lap(rig, first, list).map_err(|position| Unfit::Unlawful { lap, position })?;
        if rig.covers(&last, &first) {
            return Ok(lap);
        }
        first = last;
        lap += 1;
    }
}
