// Lists of calls on one book.
ghost use Rattle.std.specs.Prelude.{◌≡◌};
ghost use Rattle.search.specs.Short.{short_told};

use crate::copy::Uncopied;
use refusals::{Refusal, RefusalNumber};
use rig::Verdict;

// A call on a book.
#[derive(Drop)]
pub enum Call<R> {
    // So many visits more, with this rig.
    Grant { rig: R, visits: u32 },
    // What is the verdict?
    Verdict,
    // The round into a buffer of this length.
    Copy { length: usize },
    // Begin anew.
    Wipe,
}

// What a call replies.
#[derive(Clone, Copy)]
pub enum Reply {
    // The verdict, and the visits made.
    Granted { verdict: Verdict, visits: u32 },
    // The verdict, and the number of rows taken.
    Told { verdict: Verdict, taken: usize },
    // The length of the round.
    Copied { length: usize },
    // Why the round is not copied.
    Refused { why: Uncopied },
    Wiped,
}

// What a list of calls comes to.
#[derive(Clone, Copy)]
pub struct Outcome {
    pub verdict: Verdict,
    // The number of rows taken.
    pub taken: usize,
    // The length of the round, where there is one.
    pub round: Option<usize>,
    // Where the round begins in the bytes: behind the buffers of the copies.
    pub from: usize,
}

// Why a list of calls is not run.
#[derive(Clone, Copy, PartialEq, Eq, Debug)]
pub enum Short {
    // There are fewer replies than calls: so many are needed.
    Replies { needed: usize },
    // The bytes do not suffice for the buffers of the copies and for the longest round: so many are needed.
    Bytes { needed: usize },
}

impl Short {
    // The refusal's number and values.
    pub fn told(&self) -> Refusal
        ensures { result ≡ short_told self.now }
    {
        Refusal::from(*self)
    }
}

impl From<Short> for Refusal {
    ghost from_gives = { λ e r. r ≡ short_told e };

    fn from(e: Short) -> Refusal {
        let (Short::Replies { needed } | Short::Bytes { needed }) = e;
        Refusal::of_length(RefusalNumber::TooShort as u8, needed)
    }
}
