//! Prints a trace.
ghost use Rattle.std.specs.Prelude.{◌≡◌, ◌∷◌, Ok, IfOk, OnOk};
ghost use Rattle.el_world.specs.Log.{events_of};
ghost use Rattle.el_world.specs.declared.event.Event.TheVariants.{Start as start_event, Wait as wait_event, Opened as opened_event, Pipe as pipe_event, Feed as feed_event, Read as read_event, Write as write_event, Close as close_event, Enter as enter_event};
ghost use Rattle.el_record.specs.Fields.{number_before, bytes_before};
ghost use Rattle.el_record.specs.Printed.{Puts};
ghost use Rattle.el_record.specs.TraceText.{end_before, ends_before, words_before, each_before, pairs_before, env_before, mode_letter, start_answer_before, or_failed_before, ended_before, given_before, pipe_before, found_before, done_before, event_before, events_before, run_end_before, trace_text};

use crate::printer::Printer;
use crate::{RunEnd, Trace};
use el_env::{Env, Variable};
use el_words::{Bytes, NoMemory, Word, Words};
use el_world::{Ended, Event, Fault, Handle, Log, Mode, Pid, PipeEnds, StartFault};
use std::alloc::Global;

/// The text of `trace`: a line for each event in order, and a last one for its end. The only error is want
/// of memory.
///
/// The form is this project's own: numbers in decimal with a semicolon behind, and bytes as netstrings.
pub fn print_trace(alloc: Global, trace: &Trace) -> Result<Bytes, NoMemory>
    ensures { IfOk result (λ text. text ≡ trace_text (events_of trace.now.log) trace.now.end) }
{
    let mut out = Printer::new(alloc);
    put_events(&trace.log, &mut out)?;
    put_run_end(trace.end, &mut out)?;
    out.into_text()
}

fn put_events(log: &Log, out: &mut Printer) -> Result<(), NoMemory>
    ensures { OnOk result (Puts out.old out.new (events_before (events_of log.now))) }
{
    for place in 0..log.len() {
        let Some(event) = log.get(place) else {
            unreachable!();
        };
        put_event(event, out)?;
    }
    Ok(())
}

fn put_event(event: &Event, out: &mut Printer) -> Result<(), NoMemory>
    ensures { OnOk result (Puts out.old out.new (event_before event.now)) }
{
    match event {
        Event::Start {
            words,
            env,
            dir,
            ends,
            answer,
        } => put_start(words, env, dir, ends, answer, out),
        Event::Wait { pid, answer } => put_wait(*pid, answer, out),
        Event::Opened {
            dir,
            path,
            mode,
            answer,
        } => put_opened(dir, path, *mode, answer, out),
        Event::Pipe { answer } => put_pipe(answer, out),
        Event::Feed { bytes, answer } => put_feed(bytes, answer, out),
        Event::Read { handle, answer } => put_read(*handle, answer, out),
        Event::Write {
            handle,
            bytes,
            answer,
        } => put_write(*handle, bytes, answer, out),
        Event::Close { handle } => put_close(*handle, out),
        Event::Enter { dir, path, answer } => put_enter(dir, path, answer, out),
    }
}

fn put_start(
    words: &Words,
    env: &Env,
    dir: &Word,
    ends: &[Option<Handle>; 3],
    answer: &Result<Pid, StartFault>,
    out: &mut Printer,
) -> Result<(), NoMemory>
    ensures { OnOk result (Puts out.old out.new (event_before (start_event words.now env.now dir.now ends.now answer.now))) }
{
    put_byte(b'S', out)?;
    put_words(words, out)?;
    put_env(env, out)?;
    put_bytes(dir.as_bytes(), out)?;
    put_ends(ends, out)?;
    put_start_answer(answer, out)?;
    put_byte(b'\n', out)?;
    Ok(())
}

fn put_wait(pid: Pid, answer: &Result<Ended, Fault>, out: &mut Printer) -> Result<(), NoMemory>
    ensures { OnOk result (Puts out.old out.new (event_before (wait_event pid answer.now))) }
{
    put_byte(b'W', out)?;
    put_number(u64::from(pid.number), out)?;
    put_ended(answer, out)?;
    put_byte(b'\n', out)?;
    Ok(())
}

fn put_opened(
    dir: &Word,
    path: &Word,
    mode: Mode,
    answer: &Result<Handle, Fault>,
    out: &mut Printer,
) -> Result<(), NoMemory>
    ensures { OnOk result (Puts out.old out.new (event_before (opened_event dir.now path.now mode answer.now))) }
{
    put_byte(b'O', out)?;
    put_bytes(dir.as_bytes(), out)?;
    put_bytes(path.as_bytes(), out)?;
    put_byte(mode_letter(mode), out)?;
    put_opened_answer(answer, out)?;
    put_byte(b'\n', out)?;
    Ok(())
}

fn put_pipe(answer: &Result<PipeEnds, Fault>, out: &mut Printer) -> Result<(), NoMemory>
    ensures { OnOk result (Puts out.old out.new (event_before (pipe_event answer.now))) }
{
    put_byte(b'P', out)?;
    put_pipe_answer(answer, out)?;
    put_byte(b'\n', out)?;
    Ok(())
}

fn put_feed(
    bytes: &Bytes,
    answer: &Result<Handle, Fault>,
    out: &mut Printer,
) -> Result<(), NoMemory>
    ensures { OnOk result (Puts out.old out.new (event_before (feed_event bytes.now answer.now))) }
{
    put_byte(b'F', out)?;
    put_bytes(bytes.as_bytes(), out)?;
    put_opened_answer(answer, out)?;
    put_byte(b'\n', out)?;
    Ok(())
}

fn put_read(
    handle: Handle,
    answer: &Result<Bytes, Fault>,
    out: &mut Printer,
) -> Result<(), NoMemory>
    ensures { OnOk result (Puts out.old out.new (event_before (read_event handle answer.now))) }
{
    put_byte(b'R', out)?;
    put_number(handle.number, out)?;
    put_read_answer(answer, out)?;
    put_byte(b'\n', out)?;
    Ok(())
}

fn put_write(
    handle: Handle,
    bytes: &Bytes,
    answer: &Result<(), Fault>,
    out: &mut Printer,
) -> Result<(), NoMemory>
    ensures { OnOk result (Puts out.old out.new (event_before (write_event handle bytes.now answer.now))) }
{
    put_byte(b'T', out)?;
    put_number(handle.number, out)?;
    put_bytes(bytes.as_bytes(), out)?;
    put_write_answer(answer, out)?;
    put_byte(b'\n', out)?;
    Ok(())
}

fn put_close(handle: Handle, out: &mut Printer) -> Result<(), NoMemory>
    ensures { OnOk result (Puts out.old out.new (event_before (close_event handle))) }
{
    put_byte(b'C', out)?;
    put_number(handle.number, out)?;
    put_byte(b'\n', out)?;
    Ok(())
}

fn put_enter(
    dir: &Word,
    path: &Word,
    answer: &Result<Word, Fault>,
    out: &mut Printer,
) -> Result<(), NoMemory>
    ensures { OnOk result (Puts out.old out.new (event_before (enter_event dir.now path.now answer.now))) }
{
    put_byte(b'D', out)?;
    put_bytes(dir.as_bytes(), out)?;
    put_bytes(path.as_bytes(), out)?;
    put_enter_answer(answer, out)?;
    put_byte(b'\n', out)?;
    Ok(())
}

fn put_run_end(end: RunEnd, out: &mut Printer) -> Result<(), NoMemory>
    ensures { OnOk result (Puts out.old out.new (run_end_before end)) }
{
    match end {
        RunEnd::Status(code) => put_status(code, out),
        RunEnd::Spent => put_spent(out),
    }
}

fn put_status(code: u8, out: &mut Printer) -> Result<(), NoMemory>
    ensures { OnOk result (Puts out.old out.new (run_end_before (RunEnd.Status code))) }
{
    put_byte(b'Z', out)?;
    put_byte(b's', out)?;
    put_number(u64::from(code), out)?;
    put_byte(b'\n', out)?;
    Ok(())
}

fn put_spent(out: &mut Printer) -> Result<(), NoMemory>
    ensures { OnOk result (Puts out.old out.new (run_end_before RunEnd.Spent)) }
{
    put_byte(b'Z', out)?;
    put_byte(b'l', out)?;
    put_byte(b'\n', out)?;
    Ok(())
}

fn put_words(words: &Words, out: &mut Printer) -> Result<(), NoMemory>
    ensures { OnOk result (Puts out.old out.new (words_before words.now)) }
{
    put_number(words.len() as u64, out)?;
    for word in words {
        put_bytes(word, out)?;
    }
    Ok(())
}

fn put_env(env: &Env, out: &mut Printer) -> Result<(), NoMemory>
    ensures { OnOk result (Puts out.old out.new (env_before env.now)) }
{
    let variables = env.sorted()?;
    put_number(variables.len() as u64, out)?;
    for variable in &variables {
        put_variable(variable, out)?;
    }
    Ok(())
}

fn put_variable(variable: &Variable<'_>, out: &mut Printer) -> Result<(), NoMemory>
    ensures { OnOk result (Puts out.old out.new (λ rest. bytes_before variable.now.name.now (bytes_before variable.now.value.now rest))) }
{
    put_bytes(variable.name, out)?;
    put_bytes(variable.value, out)?;
    Ok(())
}

fn put_ends(ends: &[Option<Handle>; 3], out: &mut Printer) -> Result<(), NoMemory>
    ensures { OnOk result (Puts out.old out.new (ends_before ends.now)) }
{
    for end in ends {
        put_end(*end, out)?;
    }
    Ok(())
}

fn put_end(end: Option<Handle>, out: &mut Printer) -> Result<(), NoMemory>
    ensures { OnOk result (Puts out.old out.new (end_before end)) }
{
    match end {
        Some(handle) => put_number(handle.number, out),
        None => put_byte(b'-', out),
    }
}

fn mode_letter(mode: Mode) -> u8
    ensures { result ≡ mode_letter mode }
{
    match mode {
        Mode::Read => b'r',
        Mode::Write => b'w',
        Mode::Update => b'u',
        Mode::Append => b'a',
        Mode::AppendOld => b'c',
        Mode::Create => b'x',
    }
}

fn put_start_answer(answer: &Result<Pid, StartFault>, out: &mut Printer) -> Result<(), NoMemory>
    ensures { OnOk result (Puts out.old out.new (start_answer_before answer.now)) }
{
    match answer {
        Ok(pid) => put_pid(*pid, out),
        Err(StartFault::NotFound) => put_byte(b'n', out),
        Err(StartFault::NotStartable) => put_byte(b'x', out),
        Err(StartFault::Failed | StartFault::NoMemory) => put_byte(b'f', out),
    }
}

fn put_pid(pid: Pid, out: &mut Printer) -> Result<(), NoMemory>
    ensures { OnOk result (Puts out.old out.new (start_answer_before (Ok pid))) }
{
    put_byte(b'P', out)?;
    put_number(u64::from(pid.number), out)?;
    Ok(())
}

fn put_ended(answer: &Result<Ended, Fault>, out: &mut Printer) -> Result<(), NoMemory>
    ensures { OnOk result (Puts out.old out.new (or_failed_before ended_before answer.now)) }
{
    match answer {
        Ok(ended) => put_ending(*ended, out),
        Err(_) => put_byte(b'f', out),
    }
}

fn put_ending(ended: Ended, out: &mut Printer) -> Result<(), NoMemory>
    ensures { OnOk result (Puts out.old out.new (ended_before ended)) }
{
    match ended {
        Ended::Exited(code) => put_lettered(b'E', code, out),
        Ended::Killed(signal) => put_lettered(b'K', signal, out),
    }
}

fn put_lettered(letter: u8, number: u8, out: &mut Printer) -> Result<(), NoMemory>
    ensures { OnOk result (Puts out.old out.new (λ rest. letter ∷ number_before number rest)) }
{
    put_byte(letter, out)?;
    put_number(u64::from(number), out)?;
    Ok(())
}

fn put_opened_answer(answer: &Result<Handle, Fault>, out: &mut Printer) -> Result<(), NoMemory>
    ensures { OnOk result (Puts out.old out.new (or_failed_before given_before answer.now)) }
{
    match answer {
        Ok(handle) => put_given(*handle, out),
        Err(_) => put_byte(b'f', out),
    }
}

fn put_given(handle: Handle, out: &mut Printer) -> Result<(), NoMemory>
    ensures { OnOk result (Puts out.old out.new (given_before handle)) }
{
    put_byte(b'H', out)?;
    put_number(handle.number, out)?;
    Ok(())
}

fn put_pipe_answer(answer: &Result<PipeEnds, Fault>, out: &mut Printer) -> Result<(), NoMemory>
    ensures { OnOk result (Puts out.old out.new (or_failed_before pipe_before answer.now)) }
{
    match answer {
        Ok(ends) => put_pipe_ends(*ends, out),
        Err(_) => put_byte(b'f', out),
    }
}

fn put_pipe_ends(ends: PipeEnds, out: &mut Printer) -> Result<(), NoMemory>
    ensures { OnOk result (Puts out.old out.new (pipe_before ends)) }
{
    put_byte(b'H', out)?;
    put_number(ends.reader.number, out)?;
    put_number(ends.writer.number, out)?;
    Ok(())
}

fn put_read_answer(answer: &Result<Bytes, Fault>, out: &mut Printer) -> Result<(), NoMemory>
    ensures { OnOk result (Puts out.old out.new (or_failed_before found_before answer.now)) }
{
    match answer {
        Ok(bytes) => put_found(bytes.as_bytes(), out),
        Err(_) => put_byte(b'f', out),
    }
}

fn put_enter_answer(answer: &Result<Word, Fault>, out: &mut Printer) -> Result<(), NoMemory>
    ensures { OnOk result (Puts out.old out.new (or_failed_before found_before answer.now)) }
{
    match answer {
        Ok(dir) => put_found(dir.as_bytes(), out),
        Err(_) => put_byte(b'f', out),
    }
}

fn put_found(bytes: &[u8], out: &mut Printer) -> Result<(), NoMemory>
    ensures { OnOk result (Puts out.old out.new (found_before bytes.now)) }
{
    put_byte(b'B', out)?;
    put_bytes(bytes, out)?;
    Ok(())
}

fn put_write_answer(answer: &Result<(), Fault>, out: &mut Printer) -> Result<(), NoMemory>
    ensures { OnOk result (Puts out.old out.new (or_failed_before done_before answer.now)) }
{
    match answer {
        Ok(()) => put_byte(b'k', out),
        Err(_) => put_byte(b'f', out),
    }
}

// A netstring.
fn put_bytes(bytes: &[u8], out: &mut Printer) -> Result<(), NoMemory>
    ensures { OnOk result (Puts out.old out.new (bytes_before bytes.now)) }
{
    out.netstring(bytes)?;
    Ok(())
}

fn put_number(number: u64, out: &mut Printer) -> Result<(), NoMemory>
    ensures { OnOk result (Puts out.old out.new (number_before number)) }
{
    out.number(number)?;
    Ok(())
}

fn put_byte(byte: u8, out: &mut Printer) -> Result<(), NoMemory>
    ensures { OnOk result (Puts out.old out.new (λ rest. byte ∷ rest)) }
{
    out.push(byte)?;
    Ok(())
}
