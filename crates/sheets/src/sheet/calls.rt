// Making and asking a sheet.
ghost use Rattle.std.specs.Prelude.{◌≡◌, ◌<◌, ◌≤◌, length, MatchOption, slice_index};
ghost use Rattle.sheets.specs.Feeders.{SheetWithin};
ghost use Rattle.sheets.specs.SheetText.{list_of};

use crate::feeder::Feeder;
use crate::head::Head;
use crate::limits::MOST_BANKS;
use crate::listed::FeederList;
use crate::sheet::Sheet;

impl Sheet {
    // How many banks there are; they are numbered from 0.
    pub fn count(&self) -> u8
        ensures { result ≡ self.now.count }
    {
        self.count
    }

    // The ticks of settling where the panel changes.
    pub fn settle(&self) -> u16
        ensures { result ≡ self.now.settle }
    {
        self.settle
    }

    // The panel of the bank with this number, if there is one.
    pub fn panel(&self, bank: usize) -> Option<u8>
        ensures { MatchOption result (self.now.count ≤ bank) (λ p. (bank < self.now.count) × (p ≡ slice_index self.now.panels bank)) }
    {
        self.panels[..self.count as usize].get(bank).copied()
    }

    // The feeders, in the order of the sheet.
    pub fn feeders(&self) -> &[Feeder]
        ensures value { result.now ≡ list_of self.now }
        ensures len { length result.now ≡ self.now.listed }
    {
        &self.feeders[0..self.listed]
    }

    // The sheet of numbers that are within the limits.
    pub(crate) fn of(head: Head, panels: [u8; MOST_BANKS], list: FeederList) -> Sheet
        requires { SheetWithin head.banks head.settle panels list.count list.feeders }
        ensures count { result.count ≡ head.banks }
        ensures settle { result.settle ≡ head.settle }
        ensures panels { result.panels ≡ panels }
        ensures listed { result.listed ≡ list.count }
        ensures feeders { result.feeders ≡ list.feeders }
    {
        let feeders = list.feeders;
        Sheet {
            count: head.banks,
            settle: head.settle,
            panels,
            listed: list.count,
            feeders,
        }
    }
}
