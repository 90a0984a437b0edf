//! The numbers of handles.
ghost use Rattle.std.specs.Prelude.{◌≡◌, ◌≤◌, ◌<◌, IfOk, OnErr, ◌^◌, vec_len, vec_capacity, ◌+◌, ◌++◌, ◌∷◌, []};
ghost use Rattle.el_world.specs.Handles.{opened_handles, piped_handles, without, Gave};
ghost use Rattle.el_real.specs.Held.{handles_of, untold};
ghost use Rattle.el_real.specs.Lacks.{answer_of};
ghost use Rattle.el_real.specs.Streams.{StandsBehind, StandBehind, IsTakenOut};

use crate::lack::Lack;
use crate::real_world::RealWorld;
use crate::stream::{Held, Stream};
use el_world::{Handle, PipeEnds};
use std::alloc::{Alloc, Global};
use std::fs::File;
use std::process::Processes;
use std::rt::{Env, Files};

impl<R: Files<File = File> + Processes + Env + Alloc<A = Global> + Drop> RealWorld<R> {
    // Gives the next handle, which stands for this stream.
    pub(super) fn hold(&mut self, stream: Stream) -> Result<Handle, Lack>
        ensures faults { self.new.faults ≡ self.old.faults }
        ensures handles { Gave (untold self.old.faults self.old.held.items self.old.next) (untold self.new.faults self.new.held.items self.new.next) (opened_handles (answer_of result)) }
        ensures stream { IfOk result (λ handle. StandsBehind self.old.held.items self.new.held.items handle stream) }
        ensures refused { OnErr result (self.new.held.items ≡ self.old.held.items) }
    {
        let handle = Handle { number: self.next };
        let after = number_after(self.next, 1)?;
        self.held.reserve(1)?;
        put(&mut self.held, Held { handle, stream });
        self.next = after;
        Ok(handle)
    }

    // Gives the next two handles.
    pub(super) fn hold_pipe(&mut self, reader: Stream, writer: Stream) -> Result<PipeEnds, Lack>
        ensures faults { self.new.faults ≡ self.old.faults }
        ensures handles { Gave (untold self.old.faults self.old.held.items self.old.next) (untold self.new.faults self.new.held.items self.new.next) (piped_handles (answer_of result)) }
        ensures streams { IfOk result (λ ends. StandBehind self.old.held.items self.new.held.items ends reader writer) }
        ensures refused { OnErr result (self.new.held.items ≡ self.old.held.items) }
    {
        let after = number_after(self.next, 2)?;
        let ends = PipeEnds {
            reader: Handle { number: self.next },
            writer: Handle {
                number: self.next + 1,
            },
        };
        self.held.reserve(2)?;
        put(
            &mut self.held,
            Held {
                handle: ends.reader,
                stream: reader,
            },
        );
        put(
            &mut self.held,
            Held {
                handle: ends.writer,
                stream: writer,
            },
        );
        self.next = after;
        Ok(ends)
    }
}

// The next number behind so many handles, while there are numbers for them.
fn number_after(next: u64, given: u64) -> Result<u64, Lack>
    ensures after { IfOk result (λ after. after ≡ next + given) }
    ensures over { OnErr result (2 ^ 64 ≤ next + given) }
{
    next.checked_add(given).ok_or(Lack::Failed)
}

// Puts `one` last, for which there is room.
fn put(held: &mut Vec<Held>, one: Held)
    requires { vec_len held.old < vec_capacity held.old }
    ensures items { held.new.items ≡ held.old.items ++ one ∷ [] }
    ensures len { vec_len held.new ≡ vec_len held.old + 1 }
    ensures capacity { vec_capacity held.old ≤ vec_capacity held.new }
{
    let _ = held.push(one);
}

// Takes the handle out and closes it.
pub(super) fn take_out(held: &mut Vec<Held>, handle: Handle)
    ensures handles { handles_of held.new.items ≡ without (handles_of held.old.items) handle }
    ensures streams { IsTakenOut held.old.items held.new.items handle }
{
    held.retain(|one| one.handle.number != handle.number);
}
