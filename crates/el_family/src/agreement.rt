//! Whether the ends that members were told of their children are those of these.
ghost use Rattle.std.specs.Prelude.{◌≡◌};
ghost use Rattle.el_world.specs.Log.{events_of};
ghost use Rattle.std.specs.Option.{option_copied};
ghost use Rattle.std.specs.List.{list_all};
ghost use Rattle.el_family.specs.Agreement.{is_exit, fits, started_by, all_fit};

use el_world::{Ended, Event, Fault, Log, Pid};

/// The process that an event started.
pub(crate) fn started_by(event: Option<&Event>) -> Option<Pid>
    ensures { result ≡ started_by (option_copied event.entry) }
{
    match event {
        Some(
            Event::Start {
                answer: Ok(pid),
                ..
            },
        ) => Some(*pid),
        _ => None,
    }
}

/// Whether each wait of the log for this process was answered with this status.
pub(crate) fn all_fit(pid: Option<Pid>, code: u8, log: &Log) -> bool
    ensures { result ≡ all_fit pid code (events_of log.now) }
{
    match pid {
        Some(pid) => waits_fit(pid, code, log),
        None => true,
    }
}

fn waits_fit(pid: Pid, code: u8, log: &Log) -> bool
    ensures { result ≡ list_all (fits pid code) (events_of log.now) }
{
    for place in 0..log.len() {
        let Some(event) = log.get(place) else {
            unreachable!();
        };
        if !fits(pid, code, event) {
            return false;
        }
    }
    true
}

fn fits(pid: Pid, code: u8, event: &Event) -> bool
    ensures { result ≡ fits pid code event.now }
{
    match event {
        Event::Wait { pid: other, answer } => other.number != pid.number || is_exit(code, answer),
        _ => true,
    }
}

fn is_exit(code: u8, answer: &Result<Ended, Fault>) -> bool
    ensures { result ≡ is_exit code answer.now }
{
    match answer {
        Ok(Ended::Exited(other)) => *other == code,
        _ => false,
    }
}
