// Rigs: machines with numbered moves, judged by what they can do for ever.
// A rig's replies depend on the rig and the state alone; asking alters nothing.
#![tactic(auto)]

ghost use Rattle.std.specs.Prelude.{◌≡◌, ℕ, ◌<◌, ◌≤◌, true, Decides};
ghost use Rattle.rig.specs.Meaning.{Meaning, Laws, lawful, after};

mod check;
mod guided;
mod moves;
mod verdict;

pub use check::{Unfit, check_list};
pub use guided::GuidedRig;
pub use moves::Moves;
pub use verdict::Verdict;

// The most moves that a rig may have.
pub const MOST_MOVES: u8 = 32;

pub trait Rig {
    type State: Copy + Drop;

    // What the rig's replies are.
    ghost means: { Self → Meaning Self.State };

    // How many moves there are, 1 to 32, numbered from 0.
    fn moves(&self) -> u8
        ensures value { result ≡ (means self.now).moves }
        ensures some { 0 < result }
        ensures few { result ≤ 32 };

    fn rest(&self) -> Self::State
        ensures { result ≡ (means self.now).rest };

    fn proper(&self, s: &Self::State) -> bool
        ensures { result ≡ (means self.now).proper s.now };

    // True exactly when the two states are identical.
    fn equal(&self, a: &Self::State, b: &Self::State) -> bool
        ensures { Decides result (a.now ≡ b.now) };

    // Whether a covers b: it is at least as fresh.
    fn covers(&self, a: &Self::State, b: &Self::State) -> bool
        ensures { result ≡ (means self.now).covers a.now b.now };

    fn lawful(&self, s: &Self::State, j: u8) -> bool
        ensures { result ≡ lawful (means self.now) s.now j };

    // The state that follows; rest after an unlawful move.
    fn after(&self, s: &Self::State, j: u8) -> Self::State
        ensures { result ≡ after (means self.now) s.now j };

    // A rank that grows as a state gets staler: told of proper states.
    fn staleness(&self, s: &Self::State) -> u32
        ensures { (means self.now).proper s.now ≡ true → result ≡ (means self.now).staleness s.now };

    fn ceiling(&self) -> u32
        ensures { result ≡ (means self.now).ceiling };

    // What each rig proves of its proper states.
    ghost shown: { (r : Self) → Laws (means r) };
}
