// The account of a feeder sheet: what each bank needs.
use sheets::{Sheet, bank_needs};
use std::fmt;

// The whole account of a sheet, for printing.
#[derive(Clone, Copy)]
pub struct SheetAccount<'a> {
    pub sheet: &'a Sheet,
}

impl fmt::Display for SheetAccount<'_> {
    fn fmt<W: fmt::Write>(&self, f: &mut fmt::Formatter<W>) -> fmt::Result {
        let sheet = self.sheet;
        writeln!(f, "banks {}", sheet.count())?;
        writeln!(f, "settle {}", sheet.settle())?;
        writeln!(f, "feeders {}", sheet.feeders().len())?;
        for bank in 0..sheet.count() {
            if let Some(needs) = bank_needs(sheet, bank) {
                writeln!(
                    f,
                    "bank {bank}: feeders {}, panel {}, dwell {} set by feeder {}, gap {} set by feeder {}",
                    needs.feeders,
                    needs.panel,
                    needs.dwell,
                    needs.dwell_feeder,
                    needs.gap,
                    needs.gap_feeder
                )?;
            }
        }
        Ok(())
    }
}
