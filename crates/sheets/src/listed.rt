// The feeders of a sheet that are read one by one.
ghost use Rattle.std.specs.Prelude.{◌≡◌, ◌+◌, ◌<◌, ◌≤◌, length, take, Decides, MatchOption, nat_lt, slice_set};
ghost use Rattle.sheets.specs.Limits.{most_feeders};
ghost use Rattle.sheets.specs.Feeders.{AllServed, HasBank, HasNumber, NoneIn};

use crate::feeder::Feeder;
use crate::limits::MOST_FEEDERS;

// Feeders in the first `count` places, as a sheet holds them.
#[derive(Clone, Copy)]
pub(crate) struct FeederList {
    pub(crate) feeders: [Feeder; MOST_FEEDERS],
    pub(crate) count: usize,
    ghost places: { length feeders ≡ most_feeders },
    ghost room: { count ≤ most_feeders },
}

impl FeederList {
    // No feeder.
    pub(crate) fn new() -> FeederList
        ensures { result.count ≡ 0 }
    {
        let none = Feeder {
            number: 0,
            bank: 0,
            reading: 0,
            swap: 0,
        };
        FeederList {
            feeders: [none; MOST_FEEDERS],
            count: 0,
        }
    }

    // The feeders.
    pub(crate) fn as_slice(&self) -> &[Feeder]
        ensures value { result.now ≡ take self.now.count self.now.feeders }
        ensures len { length result.now ≡ self.now.count }
    {
        &self.feeders[..self.count]
    }

    // Whether there is room for one more.
    pub(crate) fn has_room(&self) -> bool
        ensures { result ≡ nat_lt self.now.count most_feeders }
    {
        self.count < MOST_FEEDERS
    }

    // Whether one of them has this number.
    pub(crate) fn has_number(&self, number: u16) -> bool
        ensures { Decides result (HasNumber self.now.feeders self.now.count number) }
    {
        self.as_slice().iter().any(|f| f.number == number)
    }

    // Whether one of them is in this bank.
    fn has_bank(&self, bank: u8) -> bool
        ensures { Decides result (HasBank self.now.feeders self.now.count bank) }
    {
        self.as_slice().iter().any(|f| f.bank == bank)
    }

    // The first bank that has none of them.
    pub(crate) fn bare_bank(&self, banks: u8) -> Option<u8>
        ensures { MatchOption result (AllServed banks self.now.feeders self.now.count) (λ i. (i < banks) × NoneIn self.now.feeders self.now.count i) }
    {
        (0..banks).find(|i| !self.has_bank(*i))
    }

    // Lists one more.
    pub(crate) fn push(&mut self, feeder: Feeder)
        requires { self.old.count < most_feeders }
        ensures feeders { self.new.feeders ≡ slice_set self.old.feeders self.old.count feeder }
        ensures count { self.new.count ≡ self.old.count + 1 }
    {
        self.feeders[self.count] = feeder;
        self.count += 1;
    }
}
