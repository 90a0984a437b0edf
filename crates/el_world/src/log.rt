//! Events in the order in which they came.
ghost use Rattle.std.specs.Prelude.{◌≡◌, [], ◌∷◌, ◌++◌, length, OnOk, OnErr, slice_get};
ghost use Rattle.std.specs.Option.{option_copied};
ghost use Rattle.el_world.specs.Log.{events_of};

use crate::Event;
use el_words::NoMemory;
use std::alloc::Global;

/// A list of events, in the order in which they came. A contract sees it as `events_of` it.
// No `Model`: a tape keeps room in it, which a list wouldn't show.
#[derive(Drop)]
pub struct Log {
    pub(crate) events: Vec<Event>,
}

impl Log {
    /// No events. Later pushes take their memory from `alloc`.
    pub fn new(alloc: Global) -> Log
        ensures { events_of result ≡ [] }
    {
        Log {
            events: Vec::new(alloc),
        }
    }

    /// The same list.
    pub fn from_vec(events: Vec<Event>) -> Log
        ensures { events_of result ≡ events.items }
    {
        Log { events }
    }

    /// How many events there are.
    pub fn len(&self) -> usize
        ensures { result ≡ length (events_of self.now) }
    {
        self.events.len()
    }

    /// The event at `place`, or None exactly where `place` is at least the length.
    pub fn get(&self, place: usize) -> Option<&Event>
        ensures { option_copied result ≡ slice_get (events_of self.now) place }
    {
        self.events.get(place)
    }

    /// Puts `event` last. After an error the log is as before.
    pub fn push(&mut self, event: Event) -> Result<(), NoMemory>
        ensures ok { OnOk result (events_of self.new ≡ events_of self.old ++ event ∷ []) }
        ensures err { OnErr result (events_of self.new ≡ events_of self.old) }
    {
        self.events.push(event)?;
        Ok(())
    }
}
