// Rigs that guide a search for a round.
ghost use Rattle.std.specs.Prelude.{◌≡◌, true};
ghost use Rattle.rig.specs.Guides.{Guide, GuideLaws, choice, guided};
ghost use Rattle.rig.specs.Sets.{in_set};

use crate::{Moves, Rig};

pub trait GuidedRig: Rig {
    // What the guide's replies are.
    ghost guide: { Self → Guide Self.State };

    // True only where no endless lawful order begins: told of proper states.
    fn hopeless(&self, s: &Self::State) -> bool
        ensures { (Self.means self.now).proper s.now ≡ true → result ≡ (guide self.now).hopeless s.now };

    // The move to try next of those untried, 0 where none is (docs/RULES.md): told of proper states.
    fn choose(&self, s: &Self::State, untried: &Moves) -> u8
        ensures { (Self.means self.now).proper s.now ≡ true → result ≡ choice (guided (Self.means self.now) (guide self.now)) s.now (in_set untried.now.held) };

    // What each guided rig proves of its proper states.
    ghost guide_shown: { (r : Self) → GuideLaws (guided (Self.means r) (guide r)) };
}
