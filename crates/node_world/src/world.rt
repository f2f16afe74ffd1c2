ghost use Rattle.std.specs.Prelude.{◌≡◌, ℕ, Bool, true, false, List, Option, is_ok};
ghost use Rattle.net_base.specs.declared.action.Action.{Action as Act};
ghost use Rattle.net_base.specs.declared.event.Event.{Event as Happening};
ghost use Rattle.node_world.specs.declared.opening.Opening.{Opening as Opened};
ghost use Rattle.node_world.specs.Meanings.{opening_after, taken_after, done_after, says_end, GivesWithinLimits, HasCause};

use crate::{Next, WorldRefusal};
use net_base::{Action, AddrList};
use node_settings::Config;

/// What is around a node.
pub trait World {
    /// Events can be asked for, and actions be handed over.
    ghost is_open: { Self → Bool };

    /// The last call of `next` answered the end.
    ghost has_ended: { Self → Bool };

    /// How many calls failed.
    ghost faults: { Self → ℕ };

    /// What it was opened with, where the world tells it.
    ghost opening: { Self → Option (Option Opened) };

    /// The events that were taken from it, where it tells them.
    ghost taken: { Self → Option (List Happening) };

    /// The actions that it did, where it tells them.
    ghost done: { Self → Option (List Act) };

    /// Opens the world with the settings and the public root peers. A refusal opens nothing.
    fn open(&mut self, config: &Config, publics: &AddrList) -> Result<(), WorldRefusal>
        requires { is_open self.old ≡ false }
        ensures open { is_open self.new ≡ is_ok result }
        ensures opening { opening self.new ≡ opening_after (opening self.old) (record { config = config.now; publics = publics.now }) result }
        ensures ended { has_ended self.new ≡ has_ended self.old }
        ensures taken { taken self.new ≡ taken self.old }
        ensures done { done self.new ≡ done self.old }
        ensures cause { HasCause (faults self.old) (faults self.new) result };

    /// Takes the next event from the world, or its end. A refusal takes none.
    fn next(&mut self) -> Result<Next, WorldRefusal>
        requires { is_open self.old ≡ true }
        ensures open { is_open self.new ≡ true }
        ensures opening { opening self.new ≡ opening self.old }
        ensures limits { GivesWithinLimits result }
        ensures ended { has_ended self.new ≡ says_end result }
        ensures taken { taken self.new ≡ taken_after (taken self.old) result }
        ensures done { done self.new ≡ done self.old }
        ensures cause { HasCause (faults self.old) (faults self.new) result };

    /// Has the world do an action. A refusal has nothing done.
    fn act(&mut self, action: &Action) -> Result<(), WorldRefusal>
        requires { is_open self.old ≡ true }
        ensures open { is_open self.new ≡ true }
        ensures opening { opening self.new ≡ opening self.old }
        ensures ended { has_ended self.new ≡ has_ended self.old }
        ensures taken { taken self.new ≡ taken self.old }
        ensures done { done self.new ≡ done_after (done self.old) action.now result }
        ensures cause { HasCause (faults self.old) (faults self.new) result };
}
