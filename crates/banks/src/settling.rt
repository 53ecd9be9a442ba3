// Settling from one dwell to the next.
ghost use Rattle.std.specs.Prelude.{◌≡◌, ◌==◌, if◌then◌else◌};
ghost use Rattle.banks.specs.Table.{panel};

use crate::table::BankTable;

impl BankTable {
    // The settling ticks from a dwell on this panel to a dwell on a bank: none where the bank lies on the same panel.
    pub fn settling(&self, from: u8, to: u8) -> u16
        ensures { result ≡ (if from == panel self.now to then 0 else self.now.settle) }
    {
        if from == self.at(to as usize).panel {
            0
        } else {
            self.settle()
        }
    }
}
