//! Shows a trace as lines that one can read.
ghost use Rattle.el_room.specs.Vocabulary.{decimal, events_of, Start as start_event, Wait as wait_event, Pipe as pipe_event, Feed as feed_event, Write as write_event, Close as close_event};
ghost use Rattle.std.specs.Prelude.{◌≡◌, ◌++◌, Ok, IfOk, OnOk};
ghost use Rattle.std.specs.FinMap as map;
ghost use Rattle.el_world.specs.declared.event.Event.TheVariants.{Read as read_event};
ghost use Rattle.el_record.specs.Printed.{Puts};
ghost use Rattle.el_trace.specs.Lines.{control_shown, byte_shown, bytes_shown, quoted, variable_shown, other_end_shown, no_end_shown, words_shown, pairs_shown, end_shown, ends_shown, or_failed, started_shown, ended_shown, handle_shown, pipe_shown, done_shown, mode_shown, opened_shown, entered_shown, event_shown, shown_event, shown_events, end_line, shown_trace};

use el_env::{Env, Variable};
use el_record::{RunEnd, Trace};
use el_words::{Bytes, NoMemory, Word, Words, put_u64};
use el_world::{Ended, Event, Fault, Handle, Log, Mode, Pid, PipeEnds, StartFault};
use std::alloc::Global;

/// A trace as lines: each call with its number and its answer, and a last one for the end. The only error is
/// want of memory.
pub fn trace_lines(alloc: Global, trace: &Trace) -> Result<Bytes, NoMemory>
    ensures { IfOk result (λ text. text ≡ shown_trace (events_of trace.now.log) trace.now.end) }
{
    let mut out = Bytes::new(alloc);
    put_events(alloc, &trace.log, &mut out)?;
    put_number(alloc, trace.log.len() as u64, &mut out)?;
    put_run_end(alloc, trace.end, &mut out)?;
    Ok(out)
}

fn put_events(alloc: Global, log: &Log, out: &mut Bytes) -> Result<(), NoMemory>
    ensures { OnOk result (Puts out.old out.new (shown_events 0 (events_of log.now))) }
{
    for place in 0..log.len() {
        let Some(event) = log.get(place) else {
            unreachable!();
        };
        put_line(alloc, place, event, out)?;
    }
    Ok(())
}

fn put_line(alloc: Global, number: usize, event: &Event, out: &mut Bytes) -> Result<(), NoMemory>
    ensures { OnOk result (Puts out.old out.new (shown_event number event.now)) }
{
    put_number(alloc, number as u64, out)?;
    put_text(b" ", out)?;
    put_event(alloc, event, out)?;
    put_text(b"\n", out)?;
    Ok(())
}

fn put_event(alloc: Global, event: &Event, out: &mut Bytes) -> Result<(), NoMemory>
    ensures { OnOk result (Puts out.old out.new (event_shown event.now)) }
{
    match event {
        Event::Start {
            words,
            env,
            dir,
            ends,
            answer,
        } => put_start(alloc, words, env, dir, ends, answer, out),
        Event::Wait { pid, answer } => put_wait(alloc, *pid, answer, out),
        Event::Opened {
            path,
            mode,
            answer,
            ..
        } => put_opened(alloc, path, *mode, answer, out),
        Event::Pipe { answer } => put_pipe(alloc, answer, out),
        Event::Feed { bytes, answer } => put_feed(alloc, bytes, answer, out),
        Event::Read { handle, answer } => put_read(alloc, *handle, answer, out),
        Event::Write {
            handle,
            bytes,
            answer,
        } => put_write(alloc, *handle, bytes, answer, out),
        Event::Close { handle } => put_close(alloc, *handle, out),
        Event::Enter { path, answer, .. } => put_enter(alloc, path, answer, out),
    }
}

fn put_start(
    alloc: Global,
    words: &Words,
    env: &Env,
    dir: &Word,
    ends: &[Option<Handle>; 3],
    answer: &Result<Pid, StartFault>,
    out: &mut Bytes,
) -> Result<(), NoMemory>
    ensures { OnOk result (Puts out.old out.new (event_shown (start_event words.now env.now dir.now ends.now answer.now))) }
{
    put_text(b"start [", out)?;
    put_words(alloc, words, out)?;
    put_text(b"] in ", out)?;
    put_bytes(alloc, dir.as_bytes(), out)?;
    put_env(alloc, env, out)?;
    put_ends(alloc, ends, out)?;
    put_started(alloc, answer, out)?;
    Ok(())
}

fn put_wait(
    alloc: Global,
    pid: Pid,
    answer: &Result<Ended, Fault>,
    out: &mut Bytes,
) -> Result<(), NoMemory>
    ensures { OnOk result (Puts out.old out.new (event_shown (wait_event pid answer.now))) }
{
    put_text(b"wait ", out)?;
    put_number(alloc, u64::from(pid.number), out)?;
    put_text(b": ", out)?;
    put_ended(alloc, answer, out)?;
    Ok(())
}

fn put_opened(
    alloc: Global,
    path: &Word,
    mode: Mode,
    answer: &Result<Handle, Fault>,
    out: &mut Bytes,
) -> Result<(), NoMemory>
    ensures { OnOk result (Puts out.old out.new (opened_shown path.now mode answer.now)) }
{
    put_text(b"open ", out)?;
    put_bytes(alloc, path.as_bytes(), out)?;
    put_text(b" for ", out)?;
    put_text(mode_shown(mode), out)?;
    put_text(b": ", out)?;
    put_given(alloc, answer, out)?;
    Ok(())
}

fn put_pipe(
    alloc: Global,
    answer: &Result<PipeEnds, Fault>,
    out: &mut Bytes,
) -> Result<(), NoMemory>
    ensures { OnOk result (Puts out.old out.new (event_shown (pipe_event answer.now))) }
{
    put_text(b"pipe: ", out)?;
    put_piped(alloc, answer, out)?;
    Ok(())
}

fn put_feed(
    alloc: Global,
    bytes: &Bytes,
    answer: &Result<Handle, Fault>,
    out: &mut Bytes,
) -> Result<(), NoMemory>
    ensures { OnOk result (Puts out.old out.new (event_shown (feed_event bytes.now answer.now))) }
{
    put_text(b"feed ", out)?;
    put_quoted(alloc, bytes.as_bytes(), out)?;
    put_text(b": ", out)?;
    put_given(alloc, answer, out)?;
    Ok(())
}

fn put_read(
    alloc: Global,
    handle: Handle,
    answer: &Result<Bytes, Fault>,
    out: &mut Bytes,
) -> Result<(), NoMemory>
    ensures { OnOk result (Puts out.old out.new (event_shown (read_event handle answer.now))) }
{
    put_text(b"read ", out)?;
    put_number(alloc, handle.number, out)?;
    put_text(b": ", out)?;
    put_piece(alloc, answer, out)?;
    Ok(())
}

fn put_write(
    alloc: Global,
    handle: Handle,
    bytes: &Bytes,
    answer: &Result<(), Fault>,
    out: &mut Bytes,
) -> Result<(), NoMemory>
    ensures { OnOk result (Puts out.old out.new (event_shown (write_event handle bytes.now answer.now))) }
{
    put_text(b"write ", out)?;
    put_number(alloc, handle.number, out)?;
    put_text(b" ", out)?;
    put_quoted(alloc, bytes.as_bytes(), out)?;
    put_text(b": ", out)?;
    put_done(answer, out)?;
    Ok(())
}

fn put_close(alloc: Global, handle: Handle, out: &mut Bytes) -> Result<(), NoMemory>
    ensures { OnOk result (Puts out.old out.new (event_shown (close_event handle))) }
{
    put_text(b"close ", out)?;
    put_number(alloc, handle.number, out)?;
    Ok(())
}

fn put_enter(
    alloc: Global,
    path: &Word,
    answer: &Result<Word, Fault>,
    out: &mut Bytes,
) -> Result<(), NoMemory>
    ensures { OnOk result (Puts out.old out.new (entered_shown path.now answer.now)) }
{
    put_text(b"enter ", out)?;
    put_bytes(alloc, path.as_bytes(), out)?;
    put_text(b": ", out)?;
    put_entered(alloc, answer, out)?;
    Ok(())
}

fn put_run_end(alloc: Global, end: RunEnd, out: &mut Bytes) -> Result<(), NoMemory>
    ensures { OnOk result (Puts out.old out.new (end_line end)) }
{
    match end {
        RunEnd::Status(code) => put_status(alloc, code, out),
        RunEnd::Spent => put_text(b" end: spent\n", out),
    }
}

fn put_status(alloc: Global, code: u8, out: &mut Bytes) -> Result<(), NoMemory>
    ensures { OnOk result (Puts out.old out.new (end_line (RunEnd.Status code))) }
{
    put_text(b" end: ", out)?;
    put_number(alloc, u64::from(code), out)?;
    put_text(b"\n", out)?;
    Ok(())
}

fn put_words(alloc: Global, words: &Words, out: &mut Bytes) -> Result<(), NoMemory>
    ensures { OnOk result (Puts out.old out.new (words_shown words.now)) }
{
    let mut words = words.iter();
    let Some(first) = words.next() else {
        return Ok(());
    };
    put_bytes(alloc, first, out)?;
    for word in words {
        put_text(b", ", out)?;
        put_bytes(alloc, word, out)?;
    }
    Ok(())
}

fn put_env(alloc: Global, env: &Env, out: &mut Bytes) -> Result<(), NoMemory>
    ensures { OnOk result (Puts out.old out.new (pairs_shown (map.entries env.now))) }
{
    let variables = env.sorted()?;
    for variable in &variables {
        put_variable(alloc, variable, out)?;
    }
    Ok(())
}

fn put_variable(alloc: Global, variable: &Variable<'_>, out: &mut Bytes) -> Result<(), NoMemory>
    ensures { OnOk result (Puts out.old out.new (variable_shown variable.now.name.now variable.now.value.now)) }
{
    put_text(b", ", out)?;
    put_bytes(alloc, variable.name, out)?;
    put_text(b"=", out)?;
    put_bytes(alloc, variable.value, out)?;
    Ok(())
}

fn put_ends(alloc: Global, ends: &[Option<Handle>; 3], out: &mut Bytes) -> Result<(), NoMemory>
    ensures { OnOk result (Puts out.old out.new (ends_shown 0 ends.now)) }
{
    for own in 0..ends.len() {
        put_end(alloc, own, ends[own], out)?;
    }
    Ok(())
}

fn put_end(alloc: Global, own: usize, end: Option<Handle>, out: &mut Bytes) -> Result<(), NoMemory>
    ensures { OnOk result (Puts out.old out.new (end_shown own end)) }
{
    match end {
        Some(handle) if handle.number == own as u64 => Ok(()),
        Some(handle) => put_other_end(alloc, own, handle, out),
        None => put_no_end(alloc, own, out),
    }
}

fn put_other_end(alloc: Global, own: usize, handle: Handle, out: &mut Bytes) -> Result<(), NoMemory>
    ensures { OnOk result (Puts out.old out.new (other_end_shown own handle)) }
{
    put_text(b", ", out)?;
    put_number(alloc, own as u64, out)?;
    put_text(b"=", out)?;
    put_number(alloc, handle.number, out)?;
    Ok(())
}

fn put_no_end(alloc: Global, own: usize, out: &mut Bytes) -> Result<(), NoMemory>
    ensures { OnOk result (Puts out.old out.new (no_end_shown own)) }
{
    put_text(b", ", out)?;
    put_number(alloc, own as u64, out)?;
    put_text(b"=-", out)?;
    Ok(())
}

fn put_started(
    alloc: Global,
    answer: &Result<Pid, StartFault>,
    out: &mut Bytes,
) -> Result<(), NoMemory>
    ensures { OnOk result (Puts out.old out.new (started_shown answer.now)) }
{
    match answer {
        Ok(pid) => put_pid(alloc, *pid, out),
        Err(StartFault::NotFound) => put_text(b": not found", out),
        Err(StartFault::NotStartable) => put_text(b": not startable", out),
        Err(StartFault::Failed | StartFault::NoMemory) => put_text(b": failed", out),
    }
}

fn put_pid(alloc: Global, pid: Pid, out: &mut Bytes) -> Result<(), NoMemory>
    ensures { OnOk result (Puts out.old out.new (started_shown (Ok pid))) }
{
    put_text(b" as ", out)?;
    put_number(alloc, u64::from(pid.number), out)?;
    Ok(())
}

fn put_ended(alloc: Global, answer: &Result<Ended, Fault>, out: &mut Bytes) -> Result<(), NoMemory>
    ensures { OnOk result (Puts out.old out.new (or_failed ended_shown answer.now)) }
{
    match answer {
        Ok(Ended::Exited(code)) => put_number(alloc, u64::from(*code), out),
        Ok(Ended::Killed(signal)) => put_signal(alloc, *signal, out),
        Err(_) => put_text(b"failed", out),
    }
}

fn put_signal(alloc: Global, signal: u8, out: &mut Bytes) -> Result<(), NoMemory>
    ensures { OnOk result (Puts out.old out.new (ended_shown (Ended.Killed signal))) }
{
    put_text(b"signal ", out)?;
    put_number(alloc, u64::from(signal), out)?;
    Ok(())
}

fn put_given(alloc: Global, answer: &Result<Handle, Fault>, out: &mut Bytes) -> Result<(), NoMemory>
    ensures { OnOk result (Puts out.old out.new (or_failed handle_shown answer.now)) }
{
    match answer {
        Ok(handle) => put_number(alloc, handle.number, out),
        Err(_) => put_text(b"failed", out),
    }
}

fn put_piped(
    alloc: Global,
    answer: &Result<PipeEnds, Fault>,
    out: &mut Bytes,
) -> Result<(), NoMemory>
    ensures { OnOk result (Puts out.old out.new (or_failed pipe_shown answer.now)) }
{
    match answer {
        Ok(ends) => put_pipe_ends(alloc, *ends, out),
        Err(_) => put_text(b"failed", out),
    }
}

fn put_pipe_ends(alloc: Global, ends: PipeEnds, out: &mut Bytes) -> Result<(), NoMemory>
    ensures { OnOk result (Puts out.old out.new (pipe_shown ends)) }
{
    put_number(alloc, ends.reader.number, out)?;
    put_text(b", ", out)?;
    put_number(alloc, ends.writer.number, out)?;
    Ok(())
}

fn put_piece(alloc: Global, answer: &Result<Bytes, Fault>, out: &mut Bytes) -> Result<(), NoMemory>
    ensures { OnOk result (Puts out.old out.new (or_failed quoted answer.now)) }
{
    match answer {
        Ok(bytes) => put_quoted(alloc, bytes.as_bytes(), out),
        Err(_) => put_text(b"failed", out),
    }
}

fn put_entered(alloc: Global, answer: &Result<Word, Fault>, out: &mut Bytes) -> Result<(), NoMemory>
    ensures { OnOk result (Puts out.old out.new (or_failed bytes_shown answer.now)) }
{
    match answer {
        Ok(dir) => put_bytes(alloc, dir.as_bytes(), out),
        Err(_) => put_text(b"failed", out),
    }
}

fn put_done(answer: &Result<(), Fault>, out: &mut Bytes) -> Result<(), NoMemory>
    ensures { OnOk result (Puts out.old out.new (or_failed done_shown answer.now)) }
{
    match answer {
        Ok(()) => put_text(b"done", out),
        Err(_) => put_text(b"failed", out),
    }
}

fn mode_shown(mode: Mode) -> &'static [u8]
    ensures { result.now ≡ mode_shown mode }
{
    match mode {
        Mode::Read => b"reading",
        Mode::Write => b"writing",
        Mode::Update => b"update",
        Mode::Append => b"appending",
        Mode::AppendOld => b"appending to it",
        Mode::Create => b"creation",
    }
}

fn put_quoted(alloc: Global, bytes: &[u8], out: &mut Bytes) -> Result<(), NoMemory>
    ensures { OnOk result (Puts out.old out.new (quoted bytes.now)) }
{
    put_text(b"\"", out)?;
    put_bytes(alloc, bytes, out)?;
    put_text(b"\"", out)?;
    Ok(())
}

fn put_bytes(alloc: Global, bytes: &[u8], out: &mut Bytes) -> Result<(), NoMemory>
    ensures { OnOk result (Puts out.old out.new (bytes_shown bytes.now)) }
{
    for byte in bytes {
        put_byte(alloc, *byte, out)?;
    }
    Ok(())
}

fn put_byte(alloc: Global, byte: u8, out: &mut Bytes) -> Result<(), NoMemory>
    ensures { OnOk result (Puts out.old out.new (byte_shown byte)) }
{
    match byte {
        b'\n' => put_text(b"\\n", out),
        b'\\' | b'"' => put_text(&[b'\\', byte], out),
        0..=31 | 127 => put_control(alloc, byte, out),
        _ => put_text(&[byte], out),
    }
}

fn put_control(alloc: Global, byte: u8, out: &mut Bytes) -> Result<(), NoMemory>
    ensures { OnOk result (Puts out.old out.new (control_shown byte)) }
{
    put_text(b"\\", out)?;
    put_number(alloc, u64::from(byte), out)?;
    put_text(b";", out)?;
    Ok(())
}

fn put_number(alloc: Global, number: u64, out: &mut Bytes) -> Result<(), NoMemory>
    ensures { OnOk result (Puts out.old out.new (λ rest. decimal number ++ rest)) }
{
    let digits = put_u64(alloc, number)?;
    put_text(digits.as_bytes(), out)?;
    Ok(())
}

fn put_text(text: &[u8], out: &mut Bytes) -> Result<(), NoMemory>
    ensures { OnOk result (Puts out.old out.new (λ rest. text.now ++ rest)) }
{
    out.append(text)?;
    Ok(())
}
