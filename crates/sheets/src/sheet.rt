// A feeder sheet. The type carries the limits, so no sheet outside them exists.
ghost use Rattle.std.specs.Prelude.{◌≡◌, ℕ, ◌<◌, ◌≤◌, length, slice_index};
ghost use Rattle.sheets.specs.Limits.{fewest_banks, least_swap, most_banks, most_feeders, most_number, most_panel, most_reading, most_settle, most_swap};
ghost use Rattle.sheets.specs.Feeders.{AllServed, Apart, feeder_at};

use crate::feeder::Feeder;
use crate::limits::{MOST_BANKS, MOST_FEEDERS};

mod calls;
mod needs;

pub use needs::{BankNeeds, bank_needs};

// The panels stand in the first `count` places, and the feeders in the first `listed`: arrays beside their numbers, since a sheet is
// copied, and a list of a fixed room is not.
#[derive(Clone, Copy)]
pub struct Sheet {
    count: u8,
    settle: u16,
    panels: [u8; MOST_BANKS],
    listed: usize,
    feeders: [Feeder; MOST_FEEDERS],
    ghost places: { length feeders ≡ most_feeders },
    ghost enough: { fewest_banks ≤ count },
    ghost few: { count ≤ most_banks },
    ghost settles: { settle ≤ most_settle },
    ghost panelled: { (i : ℕ) → i < count → slice_index panels i ≤ most_panel },
    ghost some: { 1 ≤ listed },
    ghost room: { listed ≤ most_feeders },
    ghost numbers: { (k : ℕ) → k < listed → (feeder_at feeders k).number ≤ most_number },
    ghost known: { (k : ℕ) → k < listed → (feeder_at feeders k).bank < count },
    ghost readings: { (k : ℕ) → k < listed → (1 ≤ (feeder_at feeders k).reading) × ((feeder_at feeders k).reading ≤ most_reading) },
    ghost swaps: { (k : ℕ) → k < listed → (least_swap (feeder_at feeders k).reading ≤ (feeder_at feeders k).swap) × ((feeder_at feeders k).swap ≤ most_swap) },
    ghost apart: { Apart feeders listed },
    ghost served: { AllServed count feeders listed },
}
