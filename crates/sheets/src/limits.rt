// The limits of what a machine has.
// How many banks there are.
pub const FEWEST_BANKS: u8 = 2;

pub const MOST_BANKS: usize = 16;

// The longest settling in ticks, and the last panel number.
pub const MOST_SETTLE: u16 = 1000;

pub const MOST_PANEL: u8 = 3;

// How many feeders a sheet can list, and the last feeder number.
pub const MOST_FEEDERS: usize = 256;

pub const MOST_NUMBER: u16 = 65535;

// The longest reading time and the longest swap time in ticks.
pub const MOST_READING: u16 = 1000;

pub const MOST_SWAP: u16 = 65535;
