ghost use Rattle.std.specs.Prelude.{◌≡◌, true, false, Some, All, is_ok, is_some, IfErr};
ghost use Rattle.net_base.specs.Limits.{IsWithinLimits};
ghost use Rattle.node_world.specs.declared.refusal.WorldRefusal.TheVariants.{OutOfMemory as NoMemory};
ghost use Rattle.node_world.specs.Meanings.{opening_after, taken_after, done_after, says_end, IsNextWithinLimits, GivesWithinLimits, HasCause};
ghost use Rattle.node_world.specs.Script.{new_script, first_of, after_taking, next_answer, after_next, IsAnswerOf, after_act};

use crate::copy::copy_of;
use crate::history::History;
use crate::waiting::Waiting;
use crate::{Next, Opening, World, WorldRefusal};
use net_base::{Action, ActionList, AddrList, CallLog, Event, EventList, NumberList};
use node_settings::Config;
use std::alloc::Global;
use std::marker::Model;

/// A world that gives events from a list and keeps the actions that it is asked for. Some of its calls fail.
#[derive(Drop)]
pub struct ScriptWorld {
    alloc: Global,
    opening: Option<Opening>,
    taken: History<Event>,
    left: Waiting,
    ended: bool,
    done: ActionList,
    calls: CallLog,
}

impl Model for ScriptWorld {
    ghost use Rattle.node_world.specs.Script.{Script};

    ghost Value = { Script };

    ghost view = { λ w. record { opening = w.opening; taken = w.taken; left = w.left; ended = w.ended; done = w.done; calls = w.calls } };
}

impl ScriptWorld {
    /// A world that is not open. Of the calls of `next` and `act`, counted together from 1, those fail whose numbers are
    /// given.
    pub fn new(alloc: Global, events: EventList, failing: NumberList) -> ScriptWorld
        requires { All IsWithinLimits events }
        ensures { result ≡ new_script events failing }
    {
        ScriptWorld {
            alloc,
            opening: None,
            taken: History::new(),
            left: Waiting::of_list(events),
            ended: false,
            done: ActionList::new(alloc),
            calls: CallLog::new(failing),
        }
    }

    /// The actions that it was asked for by calls that did not fail.
    pub fn done(&self) -> &ActionList
        ensures { result.now ≡ self.now.done }
    {
        &self.done
    }

    // The next event of the list, or its end.
    fn take(&mut self) -> Next
        ensures answer { result ≡ first_of self.old.left }
        ensures after { self.new ≡ after_taking self.old.left self.old }
        ensures limits { IsNextWithinLimits result }
    {
        match self.left.pop() {
            Some(event) => {
                self.taken = self.taken.and(&event);
                Next::Event(event)
            }
            None => {
                self.ended = true;
                Next::End
            }
        }
    }
}

impl World for ScriptWorld {
    ghost is_open = { λ w. is_some w.opening };

    ghost has_ended = { λ w. w.ended };

    ghost faults = { λ w. w.calls.faults };

    ghost opening = { λ w. Some w.opening };

    ghost taken = { λ w. Some w.taken };

    ghost done = { λ w. Some w.done };

    fn open(&mut self, config: &Config, publics: &AddrList) -> Result<(), WorldRefusal>
        requires { is_some self.old.opening ≡ false }
        ensures open { is_some self.new.opening ≡ is_ok result }
        ensures opening { Some self.new.opening ≡ opening_after (Some self.old.opening) (record { config = config.now; publics = publics.now }) result }
        ensures ended { self.new.ended ≡ self.old.ended }
        ensures taken { self.new.taken ≡ self.old.taken }
        ensures left { self.new.left ≡ self.old.left }
        ensures done { self.new.done ≡ self.old.done }
        ensures calls { self.new.calls ≡ self.old.calls }
        ensures refusal { IfErr result (λ refusal. refusal ≡ NoMemory) }
        ensures cause { HasCause self.old.calls.faults self.new.calls.faults result }
    {
        let publics = AddrList::from_slice(self.alloc, publics.as_slice())?;
        self.opening = Some(Opening {
            config: *config,
            publics,
        });
        Ok(())
    }

    fn next(&mut self) -> Result<Next, WorldRefusal>
        requires { is_some self.old.opening ≡ true }
        ensures answer { result ≡ next_answer self.old }
        ensures after { self.new ≡ after_next self.old }
        ensures limits { GivesWithinLimits result }
        ensures ended { self.new.ended ≡ says_end result }
        ensures taken { Some self.new.taken ≡ taken_after (Some self.old.taken) result }
        ensures cause { HasCause self.old.calls.faults self.new.calls.faults result }
    {
        self.ended = false;
        if self.calls.count_call() {
            return Err(WorldRefusal::Failed);
        }
        Ok(self.take())
    }

    fn act(&mut self, action: &Action) -> Result<(), WorldRefusal>
        requires { is_some self.old.opening ≡ true }
        ensures answer { IsAnswerOf self.old.calls result }
        ensures after { self.new ≡ after_act self.old action.now result }
        ensures done { Some self.new.done ≡ done_after (Some self.old.done) action.now result }
        ensures cause { HasCause self.old.calls.faults self.new.calls.faults result }
    {
        if self.calls.count_call() {
            return Err(WorldRefusal::Failed);
        }
        let copy = copy_of(self.alloc, action)?;
        self.done.push(copy)?;
        Ok(())
    }
}
