//! Parses a trace.
ghost use Rattle.std.specs.Prelude.{◌≡◌, IfOk, IfErr};
ghost use Rattle.el_world.specs.Log.{events_of};
ghost use Rattle.el_record.specs.declared.parsing.TraceFault.TheVariants.{NoMemory as no_memory};
ghost use Rattle.el_record.specs.Traces.{IsTextOf, IsFault, IsAnswer};
ghost use Rattle.el_record.specs.Read.{AreRead, IsNext};

use crate::Trace;
use crate::reader::{ReadFault, Reader};
use crate::reading::{event_at, run_end_at};
use el_words::NoMemory;
use el_world::{Event, Log};
use std::alloc::Global;
use thiserror::Error;

/// Why bytes are no trace.
#[derive(Clone, Copy, Debug, PartialEq, Eq, Error)]
pub enum TraceFault {
    /// Here starts the first line at which no record stands, or stands the first byte behind the end.
    #[error("bad trace at {at}")]
    BadTrace { at: usize },
    /// There is no memory for the trace.
    #[error("no memory")]
    NoMemory,
}

impl From<NoMemory> for TraceFault {
    ghost from_gives = { λ _ e. e ≡ no_memory };

    fn from(_: NoMemory) -> Self {
        TraceFault::NoMemory
    }
}

/// The trace whose text the bytes are: `print_trace` gives them back.
///
/// It is `BadTrace` where they are no trace's text: `at` is the start of the first line at which no record
/// stands, or the place of the first byte behind the end's record. `NoMemory` comes where there is no memory
/// for the trace.
pub fn parse_trace(alloc: Global, bytes: &[u8]) -> Result<Trace, TraceFault>
    ensures ok { IfOk result (λ trace. IsTextOf bytes.now (events_of trace.log) trace.end) }
    ensures bad { IfErr result (IsFault bytes.now) }
    ensures only { IsAnswer bytes.now result }
{
    let mut reader = Reader { rest: bytes };
    let log = read_events(alloc, &mut reader)?;
    let at = bytes.len() - reader.rest.len();
    match run_end_at(&mut reader) {
        Ok(end) if reader.rest.is_empty() => Ok(Trace { log, end }),
        Ok(_) => Err(TraceFault::BadTrace {
            at: bytes.len() - reader.rest.len(),
        }),
        Err(ReadFault::Absent) => Err(TraceFault::BadTrace { at }),
        Err(ReadFault::NoMemory) => Err(TraceFault::NoMemory),
    }
}

// The events whose records the text begins with, up to the first line at which none stands.
fn read_events(alloc: Global, reader: &mut Reader<'_>) -> Result<Log, NoMemory>
    ensures { IfOk result (λ log. AreRead reader.old.rest.now (events_of log) reader.new.rest.now) }
{
    let mut log = Log::new(alloc);
    loop {
        let Some(event) = next_event(alloc, reader)? else {
            return Ok(log);
        };
        log.push(event)?;
    }
}

// The next event, or none, where no event's record stands at the front, and all is left.
fn next_event(alloc: Global, reader: &mut Reader<'_>) -> Result<Option<Event>, NoMemory>
    ensures { IfOk result (λ event. IsNext reader.old.rest.now event reader.new.rest.now) }
{
    let mut ahead = *reader;
    match event_at(alloc, &mut ahead) {
        Ok(event) => {
            *reader = ahead;
            Ok(Some(event))
        }
        Err(ReadFault::Absent) => Ok(None),
        Err(ReadFault::NoMemory) => Err(NoMemory),
    }
}
