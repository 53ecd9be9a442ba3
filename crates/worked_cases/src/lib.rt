// Worked cases of the rules, proved of the definitions.
#![tactic(auto)]

ghost use Rattle.std.specs.Prelude.{◌≡◌, length, All};
ghost use Rattle.worked_cases.specs.Cases.{Established, worked_cases};

// The contract states that every worked case is true of the reader that it names. The answer is how many there are.
pub fn worked_cases_hold() -> u8
    ensures cases { All Established worked_cases }
    ensures answer { result ≡ length worked_cases }
{
    8
}
