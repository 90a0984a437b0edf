//! How many starts and waits there are in a log.
ghost use Rattle.std.specs.Prelude.{◌≡◌, ◌+◌, ◌<◌, ◌^◌, cond};
ghost use Rattle.el_world.specs.Log.{events_of};
ghost use Rattle.el_app.specs.Tallies.{is_start, is_wait};
ghost use Rattle.el_family.specs.Reports.{counts_of};

use el_world::{Event, Log};

/// How many starts and waits there are among events.
#[derive(Clone, Copy)]
pub(crate) struct Counts {
    pub(crate) starts: u64,
    pub(crate) waits: u64,
}

/// Counts the starts and waits of a log.
pub(crate) fn counts_of(log: &Log) -> Counts
    ensures { result ≡ counts_of (events_of log.now) }
{
    let mut counts = Counts {
        starts: 0,
        waits: 0,
    };
    for place in 0..log.len() {
        let Some(event) = log.get(place) else {
            unreachable!();
        };
        count(event, &mut counts);
    }
    counts
}

// One more, where the event is a start or a wait.
fn count(event: &Event, counts: &mut Counts)
    requires starts { counts.old.starts + 1 < 2 ^ 64 }
    requires waits { counts.old.waits + 1 < 2 ^ 64 }
    ensures starts { counts.new.starts ≡ counts.old.starts + cond (is_start event.now) 1 0 }
    ensures waits { counts.new.waits ≡ counts.old.waits + cond (is_wait event.now) 1 0 }
{
    match event {
        Event::Start { .. } => counts.starts += 1,
        Event::Wait { .. } => counts.waits += 1,
        _ => {}
    }
}
