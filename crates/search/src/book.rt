// The search book.
ghost use Rattle.std.specs.Prelude.{◌≡◌, ℕ, ◌+◌, ◌<◌, ◌≤◌, length, slice_set};
ghost use Rattle.search.specs.Rows.{usable};
ghost use Rattle.search.specs.Steps.{Stepped};
ghost use Rattle.search.specs.Grants.{Granted, verdict_of};
ghost use Rattle.search.specs.Kept.{Sound};
ghost use Rattle.search.specs.Copies.{Copied};
ghost use Rattle.rig.specs.Guides.{Guided, guided};
ghost use Rattle.search.specs.declared.step.Standing.TheVariants.{Full, Open, Round};

use crate::copy::Uncopied;
use crate::round::{path_length, write_round};
use crate::row::Row;
use crate::step::{Search, Standing, Step};
use rig::{GuidedRig, Verdict};

// A book over a lent table of rows: it has taken the first `taken` of them.
#[derive(Drop)]
pub struct Book<'a, S> {
    rows: &'a mut [Row<S>],
    taken: usize,
    standing: Standing,
    ghost within: { taken ≤ usable (length rows.now) },
    ghost begins: { ((p last : ℕ) → standing ≡ Round p last → p < taken) },
    ghost full: { (standing ≡ Full → taken ≡ usable (length rows.now)) },
}

impl<'a, S: Copy + Drop> Book<'a, S> {
    // A fresh book. It leaves the rows as they are: they are free.
    pub fn new(rows: &'a mut [Row<S>]) -> Book<'a, S>
        ensures lends { result.rows.ghost_name ≡ rows.entry.ghost_name }
        ensures rows { result.rows.now ≡ rows.old }
        ensures taken { result.taken ≡ 0 }
        ensures standing { result.standing ≡ Open }
        ensures sound { (m : Guided S) → Sound m 0 result.rows.now result.taken result.standing }
    {
        Book {
            rows,
            taken: 0,
            standing: Standing::Open,
        }
    }

    // Frees all rows, leaving them as they are, and makes the book fresh.
    pub fn wipe(&mut self)
        ensures lends { self.new.rows.ghost_name ≡ self.old.rows.ghost_name }
        ensures rows { self.new.rows.now ≡ self.old.rows.now }
        ensures taken { self.new.taken ≡ 0 }
        ensures standing { self.new.standing ≡ Open }
        ensures sound { (m : Guided S) → Sound m 0 self.new.rows.now self.new.taken self.new.standing }
    {
        self.taken = 0;
        self.standing = Standing::Open;
    }

    // The verdict and the number of rows taken.
    pub fn verdict(&self) -> (Verdict, usize)
        ensures { result ≡ (verdict_of self.now.standing, self.now.taken) }
    {
        (Verdict::from(self.standing), self.taken)
    }

    // Writes the round, a byte a move, into the front of a buffer, and tells its length.
    pub fn copy(&self, out: &mut [u8]) -> Result<usize, Uncopied>
        ensures { Copied self.now.rows.now self.now.taken self.now.standing out.old result out.new }
    {
        let Standing::Round { from, last } = self.standing else {
            return Err(Uncopied::NoRound);
        };
        let rows = &*self.rows;
        let path = &rows[from + 1..self.taken];
        let needed = path_length(path) + 1;
        if out.len() < needed {
            return Err(Uncopied::Short { needed });
        }
        write_round(path, last, out);
        Ok(needed)
    }

    // What to do next, if the book is open.
    fn next<R: GuidedRig<State = S>>(&self, rig: &R, left: u32) -> Step<S>
        ensures { Stepped (guided (R.Rig.means rig.now) (R.GuidedRig.guide rig.now)) self.now.rows.now self.now.taken left result }
    {
        let rows = &*self.rows;
        let search = Search {
            rig,
            rows,
            taken: self.taken,
            left,
        };
        search.next_step()
    }

    // Writes a row.
    fn put(&mut self, at: usize, row: Row<S>)
        requires { at < length self.old.rows.now }
        ensures lends { self.new.rows.ghost_name ≡ self.old.rows.ghost_name }
        ensures rows { self.new.rows.now ≡ slice_set self.old.rows.now at row }
        ensures taken { self.new.taken ≡ self.old.taken }
        ensures standing { self.new.standing ≡ self.old.standing }
    {
        self.rows[at] = row;
    }

    // Goes on with the search for at most so many visits; tells the verdict and the visits made.
    pub fn grant<R: GuidedRig<State = S>>(&mut self, rig: &R, visits: u32) -> (Verdict, u32)
        ensures lends { self.new.rows.ghost_name ≡ self.old.rows.ghost_name }
        ensures told { result.0 ≡ verdict_of self.new.standing }
        ensures left { Granted visits result.1 self.old.rows.now self.old.taken self.old.standing self.new.rows.now self.new.taken self.new.standing }
        ensures sound { (granted : ℕ) → Sound (guided (R.Rig.means rig.now) (R.GuidedRig.guide rig.now)) granted self.old.rows.now self.old.taken self.old.standing → Sound (guided (R.Rig.means rig.now) (R.GuidedRig.guide rig.now)) (granted + visits) self.new.rows.now self.new.taken self.new.standing }
    {
        let Standing::Open = self.standing else {
            return (Verdict::from(self.standing), 0);
        };
        // No range of turns: `made` counts only those that take a row.
        let mut made = 0;
        loop {
            match self.next(rig, visits - made) {
                Step::Settle { at, row } => self.put(at, row),
                Step::Take { row } => {
                    let at = self.taken;
                    self.put(at, row);
                    self.taken = at + 1;
                    made += 1;
                }
                Step::End { standing } => {
                    self.standing = standing;
                    return (Verdict::from(standing), made);
                }
            }
        }
    }
}
