// A round record. Its type carries that the endless repetition of its list is lawful on the panelled reader of its own table,
// so a record of which that is not true cannot be made.
ghost use Rattle.std.specs.Prelude.{◌≤◌, length};
ghost use Rattle.rig.specs.Orders.{Endless, again};
ghost use Rattle.readers.specs.Panelled.{panelled, rest_state};
ghost use Rattle.banks.specs.Stored.{most_dwells};

use arrayvec::ArrayVec;
use banks::{BankTable, MOST_DWELLS};

mod calls;

// The banks of a lap, in their order.
pub(crate) type Lap = ArrayVec<u8, MOST_DWELLS>;

#[derive(Drop)]
pub struct RoundRecord {
    table: BankTable,
    list: Lap,
    ghost some: { 1 ≤ length list.items },
    ghost few: { length list.items ≤ most_dwells },
    ghost kept: { Endless (panelled table) rest_state (again list.items) },
}
