// The head of a stored round. The type carries the limits.
ghost use Rattle.std.specs.Prelude.{◌≤◌};
ghost use Rattle.sheets.specs.Limits.{fewest_banks, most_banks, most_settle};
ghost use Rattle.banks.specs.Stored.{most_dwells};

// What a head line says: how many banks there are, the ticks of settling, and how many dwells there are.
#[derive(Clone, Copy)]
pub(crate) struct Head {
    pub(crate) banks: u8,
    pub(crate) settle: u16,
    pub(crate) dwells: u16,
    ghost enough: { fewest_banks ≤ banks },
    ghost few: { banks ≤ most_banks },
    ghost settles: { settle ≤ most_settle },
    ghost some_dwell: { 1 ≤ dwells },
    ghost few_dwells: { dwells ≤ most_dwells },
}
