// A reader that runs a round.
ghost use Rattle.std.specs.Prelude.{◌*◌, ◌<◌, length};
ghost use Rattle.rounds.specs.Record.{list_of};

use rounds::RoundRecord;

mod calls;

// The record of the round, and the place of the next dwell in its endless order. All laps but the first are alike,
// so at the end of the second the place goes back by one lap.
#[derive(Drop)]
pub struct RunningReader {
    round: RoundRecord,
    place: usize,
    ghost within: { place < 2 * length (list_of round) },
}
