// Runs a list of calls on a book that it makes.
ghost use Rattle.std.specs.Prelude.{◌≡◌, ℕ, ◌*◌, ◌^◌, ◌<◌, ◌≤◌, length, MatchResult};
ghost use Rattle.rig.specs.Guides.{Guided, guided};
ghost use Rattle.search.specs.Kept.{Sound};
ghost use Rattle.search.specs.Rows.{usable as usable-of};
ghost use Rattle.search.specs.Grants.{verdict_of};
ghost use Rattle.search.specs.Calls.{Brings, Did, LastCopied, TooFew, book_state, buffer_of, buffers, bytes_needed, granted_after};
ghost use Rattle.search.specs.Promised.{Searched};

use crate::book::Book;
use crate::calls::{Call, Outcome, Reply, Short};
use crate::row::Row;
use crate::step::usable;
use rig::GuidedRig;

// The length of the buffer that a call brings.
fn buffer<R>(call: &Call<R>) -> usize
    ensures { result ≡ buffer_of call.now }
{
    match call {
        Call::Copy { length } => *length,
        _ => 0,
    }
}

// How many bytes the buffers of the calls take together.
fn all_buffers<R>(calls: &[Call<R>]) -> u128
    ensures value { result ≡ buffers calls.now }
    ensures few { result ≤ 2 ^ 64 * 18446744073709551615 }
{
    calls.iter().map(|call| buffer(call) as u128).sum()
}

// Makes one call, with its buffer.
fn make_call<R: GuidedRig>(book: &mut Book<R::State>, call: &Call<R>, out: &mut [u8]) -> Reply
    ensures lends { book.new.rows.ghost_name ≡ book.old.rows.ghost_name }
    ensures did { Did call.now result out.old out.new (book_state book.old.rows.now book.old.taken book.old.standing) (book_state book.new.rows.now book.new.taken book.new.standing) }
    ensures sound { (m : Guided R.State) (n : ℕ) → Brings (λ r. guided (R.Rig.means r) (R.GuidedRig.guide r)) m call.now → Sound m n book.old.rows.now book.old.taken book.old.standing → Sound m (granted_after n call.now) book.new.rows.now book.new.taken book.new.standing }
{
    match call {
        Call::Grant { rig, visits } => {
            let (verdict, visits) = book.grant(rig, *visits);
            Reply::Granted { verdict, visits }
        }
        Call::Verdict => {
            let (verdict, taken) = book.verdict();
            Reply::Told { verdict, taken }
        }
        Call::Copy { length: _ } => match book.copy(out) {
            Ok(length) => Reply::Copied { length },
            Err(why) => Reply::Refused { why },
        },
        Call::Wipe => {
            book.wipe();
            Reply::Wiped
        }
    }
}

// Whether there is room for a list of calls to be run.
fn check_room<R>(rows: usize, calls: &[Call<R>], replies: usize, room: usize) -> Result<(), Short>
    requires { length calls.now < 2 ^ 64 }
    ensures { MatchResult result (λ _. (length calls.now ≤ replies) × (bytes_needed rows calls.now ≤ room)) (λ e. TooFew rows calls.now replies room e) }
{
    let needed = calls.len();
    if replies < needed {
        return Err(Short::Replies { needed });
    }
    let all = all_buffers(calls) + usable(rows) as u128;
    if all > room as u128 {
        let needed = usize::try_from(all).unwrap_or(usize::MAX);
        return Err(Short::Bytes { needed });
    }
    Ok(())
}

// Asks the verdict and copies the round, into a buffer that is long enough.
fn outcome<S: Copy + Drop>(book: &Book<S>, from: usize, out: &mut [u8]) -> Outcome
    requires { usable-of (length book.now.rows.now) ≤ length out.old }
    ensures verdict { result.verdict ≡ verdict_of book.now.standing }
    ensures taken { result.taken ≡ book.now.taken }
    ensures from { result.from ≡ from }
    ensures copied { LastCopied (book_state book.now.rows.now book.now.taken book.now.standing) out.old result.round out.new }
{
    let (verdict, taken) = book.verdict();
    let round = book.copy(out).ok();
    Outcome {
        verdict,
        taken,
        round,
        from,
    }
}

// Runs a list of calls on a book that it makes over the rows, each call with its reply. The bytes are cut into the buffers of the
// copies, in their order; then the verdict is asked, and the round is copied behind the buffers. It is refused, with nothing changed,
// where the room is too short: first where there are fewer replies than calls, then where the bytes are fewer than all buffers
// and the longest round take. Which of the two it is, the refusal says.
pub fn run_calls<R: GuidedRig>(
    rows: &mut [Row<R::State>],
    calls: &[Call<R>],
    replies: &mut [Reply],
    room: &mut [u8],
) -> Result<Outcome, Short>
    ensures { Searched (λ r. guided (R.Rig.means r) (R.GuidedRig.guide r)) rows.old calls.now replies.old room.old rows.new replies.new room.new result }
{
    check_room(rows.len(), calls, replies.len(), room.len())?;
    let mut book = Book::new(rows);
    let mut at = 0;
    // Replies are written by their index: of what a zip over `iter_mut` has written, a proof knows nothing.
    for (k, call) in calls.iter().enumerate() {
        let end = at + buffer(call);
        replies[k] = make_call(&mut book, call, &mut room[at..end]);
        at = end;
    }
    Ok(outcome(&book, at, &mut room[at..]))
}
