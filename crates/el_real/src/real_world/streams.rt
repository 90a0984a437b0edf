//! What a child has at its numbers 0 to 2.
ghost use Rattle.std.specs.Prelude.{◌≡◌};
ghost use Rattle.el_real.specs.Sources.{source_of};
ghost use Rattle.el_real.specs.Streams.{are_at, number_behind, given, IsEnd};

use crate::lack::Lack;
use crate::real_world::RealWorld;
use crate::source::{Source, source_of};
use crate::stream::stream_of;
use el_world::Handle;
use std::alloc::{Alloc, Global};
use std::fs::File;
use std::os::fd::RawFd;
use std::process::Processes;
use std::rt::{Env, Files};

// A child that is started with a number below 0 has what this process has.
const INHERITED: RawFd = -1;

impl<R: Files<File = File> + Processes + Env + Alloc<A = Global> + Drop> RealWorld<R> {
    /// The numbers of what a child gets at its numbers 0 to 2, which are open until another call opens something.
    pub(super) fn ends(&mut self, ends: &[Option<Handle>; 3]) -> Result<[RawFd; 3], Lack>
        ensures faults { self.new.faults ≡ self.old.faults }
        ensures held { self.new.held.items ≡ self.old.held.items }
        ensures next { self.new.next ≡ self.old.next }
    {
        let [input, output, errors] = *ends;
        let sources = [
            self.source(input, 0),
            self.source(output, 1),
            self.source(errors, 2),
        ];
        if !sources.contains(&Source::Null) {
            self.null.give_back();
        }
        let [input, output, errors] = sources;
        Ok([self.end(input)?, self.end(output)?, self.end(errors)?])
    }

    fn source(&self, end: Option<Handle>, place: u64) -> Source
        ensures { result ≡ source_of end place (are_at self.now.null.files.items place) }
    {
        source_of(end, place, self.null.holds(place))
    }

    fn end(&mut self, source: Source) -> Result<RawFd, Lack>
        ensures end { IsEnd self.old.held.items self.old.null.lent self.new.null.lent source result }
        ensures faults { self.new.faults ≡ self.old.faults }
        ensures held { self.new.held.items ≡ self.old.held.items }
        ensures next { self.new.next ≡ self.old.next }
    {
        match source {
            Source::Null => Ok(self.null.lend(&self.rt)?),
            Source::Inherited => Ok(INHERITED),
            Source::Copied(handle) => self.lent(handle),
        }
    }

    // What stands behind a handle: one of the process's own, or one that is held.
    fn lent(&self, handle: Handle) -> Result<RawFd, Lack>
        ensures { result ≡ given (number_behind self.now.held.items handle) }
    {
        match handle.number {
            0 => Ok(0),
            1 => Ok(1),
            2 => Ok(2),
            _ => match stream_of(&self.held, handle) {
                Some(stream) => Ok(stream.number()),
                None => Err(Lack::Failed),
            },
        }
    }
}
