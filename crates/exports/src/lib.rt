// Calls for programs in other languages: a file is handed over as bytes, and the number of its refusal comes back, 0 where it is read:
// those languages have no `Option`.
#![tactic(auto)]

ghost use Rattle.std.specs.Prelude.{◌≡◌, MatchResult};
ghost use Rattle.refusals.specs.declared.Refusal.{Refusal as AnyRefusal};
ghost use Rattle.sheets.specs.SheetText.{FirstFault as SheetFault, SomeSheet};
ghost use Rattle.rounds.specs.Stored.{FirstFault as RoundFault, SomeStored};

use refusals::Refusal;
use rounds::{RoundRecord, read_round};
use sheets::read_sheet;

// The number of the fault of a file that was read, or 0 where there is none.
fn number_of<T: Drop, F: Drop + Into<Refusal>>(read: Result<T, F>) -> u8
    ensures { MatchResult read (λ _. result ≡ 0) (λ fault. (told : AnyRefusal) × F.converts fault told × (result ≡ told.number)) }
{
    match read {
        Ok(_) => 0,
        Err(fault) => fault.into().number,
    }
}

// The number of the first fault of the bytes as a stored round, or 0 where they are one.
#[unsafe(no_mangle)]
pub extern "C" fn round_refusal(bytes: &[u8]) -> u8
    ensures read { SomeStored bytes.now → result ≡ 0 }
    ensures refused { (s : AnyRefusal) → RoundFault bytes.now s → result ≡ s.number }
{
    let mut round = RoundRecord::stock();
    number_of(read_round(bytes, &mut round))
}

// The same of the bytes as a feeder sheet.
#[unsafe(no_mangle)]
pub extern "C" fn sheet_refusal(bytes: &[u8]) -> u8
    ensures read { SomeSheet bytes.now → result ≡ 0 }
    ensures refused { (s : AnyRefusal) → SheetFault bytes.now s → result ≡ s.number }
{
    number_of(read_sheet(bytes))
}
