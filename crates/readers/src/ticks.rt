// What lawful orders are in ticks.
ghost use Rattle.std.specs.Prelude.{◌≡◌};
ghost use Rattle.readers.specs.Regular.{LawfulIsRegular, PlainIsRegular, ReadersAgree};

// The contract states that an endless order is lawful for a reader exactly when it is regular in ticks,
// and that the two readers agree where nothing settles. The answer tells nothing.
pub fn lawful_is_regular() -> u8
    ensures panelled { LawfulIsRegular }
    ensures plain { PlainIsRegular }
    ensures agree { ReadersAgree }
    ensures answer { result ≡ 0 }
{
    0
}
