// Ages of the banks: whether they are within the gaps, and what one dwell does to them.
ghost use Rattle.std.specs.Prelude.{◌≡◌, ◌*◌, ◌<◌, ◌≤◌, true};
ghost use Rattle.banks.specs.Places.{age_at, spread};
ghost use Rattle.readers.specs.Ages.{age_sum, aged, ages_cover, ages_proper, in_time};

use banks::BankTable;
use sheets::MOST_BANKS;

// The functions below take a table and ages, each by its own reference: a reader holds the one and its state the other.
// A struct of the two would be made anew for each call, and every clause would speak of the two through it.

// The age of each bank. Places without a bank have age 0.
pub type Ages = [u16; MOST_BANKS];

// Whether no age exceeds the gap of its place.
pub(crate) fn ages_proper(table: &BankTable, ages: &Ages) -> bool
    ensures { result ≡ ages_proper table.now (age_at ages.now) }
{
    ages.iter()
        .enumerate()
        .all(|(i, age)| *age <= table.at(i).gap)
}

// Whether none of the banks' ages in `a` is larger than in `b`.
pub(crate) fn ages_cover(table: &BankTable, a: &Ages, b: &Ages) -> bool
    ensures { result ≡ ages_cover table.now (age_at a.now) (age_at b.now) }
{
    let compared = table.count() as usize;
    a.iter()
        .zip(b.iter())
        .take(compared)
        .all(|(fresh, stale)| fresh <= stale)
}

// Whether a dwell on bank j after this settling leaves no bank waiting longer than its gap.
pub(crate) fn in_time(table: &BankTable, ages: &Ages, j: u8, settling: u16) -> bool
    ensures { result ≡ in_time table.now (age_at ages.now) j settling }
{
    let own = j as usize;
    let dwell = table.at(own).dwell as u32;
    (0..table.count() as usize).all(|i| {
        let begins = ages[i] as u32 + settling as u32;
        let wait = if i == own { begins } else { begins + dwell };
        wait <= table.at(i).gap as u32
    })
}

// The ages after that dwell, which is in time.
pub(crate) fn ages_after(table: &BankTable, ages: &Ages, j: u8, settling: u16) -> Ages
    requires bank { j < table.now.count }
    requires fits { in_time table.now (age_at ages.now) j settling ≡ true }
    ensures { result ≡ spread (aged table.now (age_at ages.now) j settling) }
{
    let own = j as usize;
    let banks = table.count() as usize;
    let dwell = table.at(own).dwell;
    let mut after = [0; MOST_BANKS];
    // Every bank's age grows, that of bank j too, so that no turn has a choice to make.
    for (i, age) in after[..banks].iter_mut().enumerate() {
        *age = ages[i].saturating_add(settling).saturating_add(dwell);
    }
    after[own] = 0;
    after
}

// The sum of the banks' ages.
pub(crate) fn age_sum(table: &BankTable, ages: &Ages) -> u32
    ensures sum { result ≡ age_sum table.now (age_at ages.now) }
    ensures small { result ≤ 65535 * table.now.count }
{
    let banks = table.count() as usize;
    ages.iter().take(banks).map(|age| *age as u32).sum()
}
