//! What a scripted world answers, by the answer that it takes.
ghost use Rattle.std.specs.Prelude.{◌≡◌, ◌≢◌, ◌<◌, ◌≤◌, ◌+◌, ◌^◌, length, Err, IfOk, OnOk, IsErrOf, true};
ghost use Rattle.std.specs.Option.{option_copied};
ghost use Rattle.el_world.specs.Scripted.{or_plain, plain_start, start_reply, wait_reply, open_reply, pipe_reply, read_reply, write_reply, enter_reply, next_after};
ghost use Rattle.el_world.specs.World.{is_start_failed, is_failed, IsWaitStatus};

use crate::{Answer, Ended, Fault, Handle, MAX_PIECE, Pid, PipeEnds, StartFault};
use el_words::{Bytes, NoMemory, Word};
use std::alloc::Global;

// A start without an answer of its own: the next number, or a failure where there are no more.
fn plain_start(next: u64) -> Result<Pid, StartFault>
    ensures reply { result ≡ plain_start next }
    ensures answered { result ≢ Err StartFault.NoMemory }
    ensures within { OnOk result (next < 2 ^ 32) }
{
    match u32::try_from(next) {
        Ok(number) => Ok(Pid { number }),
        Err(_) => Err(StartFault::Failed),
    }
}

/// What a start answers; a plain one gives the next number.
pub(super) fn start_reply(answer: Option<&Answer>, next: u64) -> Result<Pid, StartFault>
    ensures reply { result ≡ start_reply (or_plain (option_copied answer.entry)) next }
    ensures answered { result ≢ Err StartFault.NoMemory }
    ensures within { OnOk result (next < 2 ^ 32) }
{
    match answer {
        Some(Answer::Fault) => Err(StartFault::Failed),
        Some(Answer::NotFound) => Err(StartFault::NotFound),
        Some(Answer::NotStartable) => Err(StartFault::NotStartable),
        _ => plain_start(next),
    }
}

/// What a wait answers; a plain one, that the process ended with 0.
pub(super) fn wait_reply(answer: Option<&Answer>) -> Result<Ended, Fault>
    ensures reply { result ≡ wait_reply (or_plain (option_copied answer.entry)) }
    ensures answered { result ≢ Err Fault.NoMemory }
    ensures signal { IfOk result IsWaitStatus }
{
    match answer {
        Some(Answer::Fault) => Err(Fault::Failed),
        Some(Answer::Ended(Ended::Exited(code))) => Ok(Ended::Exited(*code)),
        Some(Answer::Ended(Ended::Killed(signal))) if 0 < *signal && *signal < 128 => Ok(
            Ended::Killed(*signal),
        ),
        _ => Ok(Ended::Exited(0)),
    }
}

/// What an opening or a feeding answers; a plain one gives the next number.
pub(super) fn open_reply(answer: Option<&Answer>, next: u64) -> Result<Handle, Fault>
    ensures reply { result ≡ open_reply (or_plain (option_copied answer.entry)) next }
    ensures answered { result ≢ Err Fault.NoMemory }
    ensures next { IfOk result (λ handle. (handle.number ≡ next) × (next + 1 < 2 ^ 64)) }
{
    match answer {
        Some(Answer::Fault) => Err(Fault::Failed),
        _ if next < u64::MAX => Ok(Handle { number: next }),
        _ => Err(Fault::Failed),
    }
}

/// What a pipe answers; a plain one gives the next two numbers, the reader first.
pub(super) fn pipe_reply(answer: Option<&Answer>, next: u64) -> Result<PipeEnds, Fault>
    ensures reply { result ≡ pipe_reply (or_plain (option_copied answer.entry)) next }
    ensures answered { result ≢ Err Fault.NoMemory }
    ensures reader { IfOk result (λ ends. (ends.reader.number ≡ next) × (next + 2 < 2 ^ 64)) }
    ensures writer { IfOk result (λ ends. ends.writer.number ≡ next + 1) }
{
    match answer {
        Some(Answer::Fault) => Err(Fault::Failed),
        _ if next < u64::MAX - 1 => Ok(PipeEnds {
            reader: Handle { number: next },
            writer: Handle { number: next + 1 },
        }),
        _ => Err(Fault::Failed),
    }
}

/// What a read answers; a plain one is at the end. `NoMemory` where there is no memory for the piece.
pub(super) fn read_reply(
    alloc: Global,
    answer: Option<&Answer>,
) -> Result<Result<Bytes, Fault>, NoMemory>
    ensures reply { IfOk result (λ read. read ≡ read_reply (or_plain (option_copied answer.entry))) }
    ensures answered { IfOk result (λ read. read ≢ Err Fault.NoMemory) }
    ensures piece { IfOk result (λ read. IfOk read (λ bytes. length bytes ≤ MAX_PIECE)) }
{
    match answer {
        Some(Answer::Fault) => Ok(Err(Fault::Failed)),
        Some(Answer::Piece(bytes)) if bytes.len() <= MAX_PIECE => {
            Ok(Ok(Bytes::from_slice(alloc, bytes.as_bytes())?))
        }
        _ => Ok(Ok(Bytes::new(alloc))),
    }
}

/// What a write answers; a plain one succeeds.
pub(super) fn write_reply(answer: Option<&Answer>) -> Result<(), Fault>
    ensures reply { result ≡ write_reply (or_plain (option_copied answer.entry)) }
    ensures answered { result ≢ Err Fault.NoMemory }
{
    match answer {
        Some(Answer::Fault) => Err(Fault::Failed),
        _ => Ok(()),
    }
}

/// What an entering answers; a plain one gives the path. `NoMemory` where there is no memory for it.
pub(super) fn enter_reply(
    answer: Option<&Answer>,
    path: &Word,
) -> Result<Result<Word, Fault>, NoMemory>
    ensures reply { IfOk result (λ entered. entered ≡ enter_reply (or_plain (option_copied answer.entry)) path.now) }
    ensures answered { IfOk result (λ entered. entered ≢ Err Fault.NoMemory) }
{
    match answer {
        Some(Answer::Fault) => Ok(Err(Fault::Failed)),
        Some(Answer::Path(dir)) => Ok(Ok(dir.copy()?)),
        _ => Ok(Ok(path.copy()?)),
    }
}

/// The next number for a process, behind this answer of a start: a start that gave none takes none.
pub(super) fn next_after(answer: &Result<Pid, StartFault>, next: u64) -> u64
    requires { OnOk answer.now (next < 2 ^ 32) }
    ensures { result ≡ next_after answer.now next }
{
    match answer {
        Ok(_) => next + 1,
        Err(_) => next,
    }
}

/// Whether a start failed, which is counted.
pub(super) fn is_start_failed(answer: &Result<Pid, StartFault>) -> bool
    ensures test { result ≡ is_start_failed answer.now }
    ensures failed { IsErrOf answer.now StartFault.Failed → result ≡ true }
{
    matches!(answer, Err(StartFault::Failed))
}

/// Whether any other call failed, which is counted.
pub(super) fn is_failed<T>(answer: &Result<T, Fault>) -> bool
    ensures test { result ≡ is_failed answer.now }
    ensures failed { IsErrOf answer.now Fault.Failed → result ≡ true }
{
    matches!(answer, Err(Fault::Failed))
}
