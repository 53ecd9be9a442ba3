// A feeder: one tagged reel.
ghost use Rattle.std.specs.Prelude.{◌≡◌};
ghost use Rattle.sheets.specs.Feeders.{allowance};

// Its number, the bank that it is in, the ticks that its tag has to be read, and the ticks that a swap of its reel takes.
#[derive(Clone, Copy, PartialEq, Eq, Debug)]
pub struct Feeder {
    pub number: u16,
    pub bank: u8,
    pub reading: u16,
    pub swap: u16,
}

impl Feeder {
    // The longest wait of its bank that this feeder bears.
    pub fn allowance(&self) -> u16
        ensures { result ≡ allowance self.now }
    {
        (self.swap as u32).saturating_sub(2 * self.reading as u32) as u16
    }
}
