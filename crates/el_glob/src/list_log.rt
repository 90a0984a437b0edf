//! Listings in the order in which they came.
ghost use Rattle.std.specs.Prelude.{◌≡◌, [], ◌∷◌, ◌++◌, length, OnOk, OnErr, slice_get};
ghost use Rattle.std.specs.Option.{option_copied};

use crate::listed::ListEvent;
use el_words::NoMemory;
use std::alloc::Global;
use std::marker::Model;

/// A list of listings, in the order in which they came. A contract sees their list.
#[derive(Drop)]
pub struct ListLog {
    events: Vec<ListEvent>,
}

impl Model for ListLog {
    ghost use Rattle.std.specs.Prelude.{List};
    ghost use Rattle.std.specs.Coded.{codes};
    ghost use Rattle.el_glob.specs.contracts.listed.ListEvent as event;
    ghost use Rattle.el_glob.specs.declared.listed.ListEvent.{ListEvent as ListEventValue};

    ghost Value = { List ListEventValue };

    ghost coded = { Prim.hlevel (codes, event.the_row.coded) };

    ghost view = { λ l. l.events.items };
}

impl ListLog {
    /// No listings. Later pushes take their memory from `alloc`.
    pub fn new(alloc: Global) -> ListLog
        ensures { result ≡ [] }
    {
        ListLog {
            events: Vec::new(alloc),
        }
    }

    /// How many listings there are.
    pub fn len(&self) -> usize
        ensures { result ≡ length self.now }
    {
        self.events.len()
    }

    /// The listing at `place`, or None exactly where `place` is at least the length.
    pub fn get(&self, place: usize) -> Option<&ListEvent>
        ensures { option_copied result ≡ slice_get self.now place }
    {
        self.events.get(place)
    }

    /// Puts `event` last. After an error the log is as before.
    pub fn push(&mut self, event: ListEvent) -> Result<(), NoMemory>
        ensures ok { OnOk result (self.new ≡ self.old ++ event ∷ []) }
        ensures err { OnErr result (self.new ≡ self.old) }
    {
        self.events.push(event)?;
        Ok(())
    }
}
