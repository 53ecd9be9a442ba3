// The head of a sheet. The type carries the limits.
ghost use Rattle.std.specs.Prelude.{◌≤◌};
ghost use Rattle.sheets.specs.Limits.{fewest_banks, most_banks, most_settle};

// What a head line says: how many banks there are, and the ticks of settling.
#[derive(Clone, Copy)]
pub(crate) struct Head {
    pub(crate) banks: u8,
    pub(crate) settle: u16,
    ghost enough: { fewest_banks ≤ banks },
    ghost few: { banks ≤ most_banks },
    ghost settles: { settle ≤ most_settle },
}
