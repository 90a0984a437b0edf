//! A log with room made beforehand.
ghost use Rattle.std.specs.Prelude.{◌≡◌, ◌<◌, ◌≤◌, ◌+◌, [], ◌∷◌, ◌++◌, IfOk, OnOk};
ghost use Rattle.el_world.specs.Log.{events_of};
ghost use Rattle.el_world.specs.declared.event.Event.TheVariants.{Close as close_event};

use crate::{Event, Handle, Log};
use el_words::NoMemory;
use std::alloc::Global;
use std::marker::Model;

/// A log with room made beforehand: for the events of the closes that are due, so that none of them takes
/// memory, and for that of the next call. A contract sees its events, the number of those closes, and for
/// how many further events there is room.
#[derive(Drop)]
pub struct Tape {
    log: Log,
    closes: usize,
}

impl Model for Tape {
    ghost use Rattle.std.specs.Prelude.{◌+◌, ◌-◌, ◌≤◌, vec_len, vec_capacity};
    ghost use Rattle.std.specs.Coded.{codes};
    ghost use Rattle.el_world.specs.Tape.{Taped};
    ghost use Rattle.el_world.specs.Log.{events_of};
    ghost use Rattle.el_world.specs.contracts.event.Event as event;

    ghost Value = { Taped };

    ghost coded = { Prim.hlevel (codes, event.the_row.coded) };

    ghost view = { λ t. record { events = events_of t.log; closes = t.closes; room = vec_capacity t.log.events - (vec_len t.log.events + t.closes) } };

    ghost invariant = { λ t. vec_len t.log.events + t.closes ≤ vec_capacity t.log.events };
}

impl Tape {
    /// No events, and no close is due. Room takes its memory from `alloc`.
    pub fn new(alloc: Global) -> Tape
        ensures events { result.events ≡ [] }
        ensures closes { result.closes ≡ 0 }
    {
        Tape {
            log: Log::new(alloc),
            closes: 0,
        }
    }

    /// The events so far.
    pub fn log(&self) -> &Log
        ensures { events_of result.now ≡ self.now.events }
    {
        &self.log
    }

    /// The same events. It takes no memory.
    pub fn into_log(self) -> Log
        ensures { events_of result ≡ self.events }
    {
        self.log
    }

    /// Makes room for the event of a call that gives at most so many handles, and for those of their closes.
    pub fn make_room(&mut self, given: usize) -> Result<(), NoMemory>
        ensures events { self.new.events ≡ self.old.events }
        ensures closes { self.new.closes ≡ self.old.closes }
        ensures room { OnOk result (given + 1 ≤ self.new.room) }
    {
        let room = room_for(self.closes, given)?;
        self.log.events.reserve(room)?;
        Ok(())
    }

    /// Puts last the event of a call that gave so many handles, whose closes are due from then on. It takes no
    /// memory.
    pub fn put(&mut self, event: Event, given: usize)
        requires { given + 1 ≤ self.old.room }
        ensures events { self.new.events ≡ self.old.events ++ event ∷ [] }
        ensures closes { self.new.closes ≡ self.old.closes + given }
    {
        let _ = self.log.events.push(event);
        self.closes += given;
    }

    /// Puts last the event of a close that was due. It takes no memory.
    pub fn put_close(&mut self, handle: Handle)
        requires { 0 < self.old.closes }
        ensures events { self.new.events ≡ self.old.events ++ close_event handle ∷ [] }
        ensures closes { self.new.closes + 1 ≡ self.old.closes }
    {
        let _ = self.log.events.push(Event::Close { handle });
        self.closes -= 1;
    }
}

// How much room takes one event, beside so many closes and those of these handles.
fn room_for(closes: usize, given: usize) -> Result<usize, NoMemory>
    ensures { IfOk result (λ room. room ≡ closes + given + 1) }
{
    match closes.checked_add(given) {
        Some(closes) => closes.checked_add(1).ok_or(NoMemory),
        None => Err(NoMemory),
    }
}
