//! The asks that were made.

ghost use Rattle.std.specs.Prelude.{◌≡◌, [], ◌∷◌, ◌++◌, length, OnOk, OnErr, slice_get};
ghost use Rattle.std.specs.Option.{option_copied};

use crate::asker::AskEvent;
use el_words::NoMemory;
use std::alloc::Global;
use std::marker::Model;

/// A list of asks with their answers, in the order in which they were made.
#[derive(Drop)]
pub struct AskLog {
    events: Vec<AskEvent>,
}

impl Model for AskLog {
    ghost use Rattle.std.specs.Prelude.{List};
    ghost use Rattle.std.specs.Coded.{codes};
    ghost use Rattle.el_test.specs.contracts.asker.AskEvent as event;
    ghost use Rattle.el_test.specs.declared.asker.AskEvent.{AskEvent as EventValue};

    ghost Value = { List EventValue };

    ghost coded = { Prim.hlevel (codes, event.the_row.coded) };

    ghost view = { λ log. log.events.items };
}

impl AskLog {
    /// No asks. Later pushes take their memory from `alloc`.
    pub fn new(alloc: Global) -> AskLog
        ensures { result ≡ [] }
    {
        AskLog {
            events: Vec::new(alloc),
        }
    }

    /// How many asks there are.
    pub fn len(&self) -> usize
        ensures { result ≡ length self.now }
    {
        self.events.len()
    }

    /// The ask at `place`, or None exactly where `place` is at least the length.
    pub fn get(&self, place: usize) -> Option<&AskEvent>
        ensures { option_copied result ≡ slice_get self.now place }
    {
        self.events.get(place)
    }

    /// Puts `event` last. After an error the log is as before.
    pub fn push(&mut self, event: AskEvent) -> Result<(), NoMemory>
        ensures ok { OnOk result (self.new ≡ self.old ++ event ∷ []) }
        ensures err { OnErr result (self.new ≡ self.old) }
    {
        self.events.push(event)?;
        Ok(())
    }
}
