// What stands in a listing, and how it is put there.
ghost use Rattle.std.specs.Prelude.{◌≡◌, ℕ, ◌≤◌, List, length};
ghost use Rattle.std.specs.Iterator.{Drains, HoldsAlong, IsFinite};
ghost use Rattle.std.specs.List.{flat_map};
ghost use Rattle.listings.specs.Writing.{Put, Wrote};

use crate::short::TooShort;

// A value that stands in a listing by its text.
pub(crate) trait Listed {
    ghost text: { Self → List ℕ };

    // Puts the text into the front of a buffer, and tells its length.
    fn put(&self, out: &mut [u8]) -> usize
        requires { length (text self.now) ≤ length out.old }
        ensures { Put (text self.now) out.old out.new result };
}

// A value whose text is a listing of its own: how long it is, is known before it is put.
pub(crate) trait Listing: Listed {
    fn needed(&self) -> usize
        ensures { result ≡ length (Self.text self.now) };
}

// The texts of all items, one behind the other.
pub(crate) fn put_all<T: Listed + Drop, I: Iterator<Item = T> + Drop>(
    items: I,
    out: &mut [u8],
) -> usize
    requires can { I.can_next items }
    requires ends { IsFinite (I.remaining items) }
    requires room { HoldsAlong I.next_gives items (λ xs. length (flat_map T.text xs) ≤ length out.old) }
    ensures { (xs : List T) × Drains I.next_gives items xs × Put (flat_map T.text xs) out.old out.new result }
{
    let mut at = 0;
    for item in items {
        at += item.put(&mut out[at..]);
    }
    at
}

// Writes a listing; where there is no room, nothing.
pub(crate) fn write<T: Listing>(listing: &T, out: &mut [u8]) -> Result<usize, TooShort>
    ensures { Wrote (T.text listing.now) out.old out.new result }
{
    let needed = listing.needed();
    if out.len() < needed {
        return Err(TooShort { needed });
    }
    Ok(listing.put(out))
}
