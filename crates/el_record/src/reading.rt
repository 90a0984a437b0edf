//! Reads the records of a trace's text.
ghost use Rattle.std.specs.Prelude.{◌≡◌, ◌&&◌, ℕ, nat_lt, List, [], length};
ghost use Rattle.std.specs.Ordering.{nat_cmp, is_lt};
ghost use Rattle.std.specs.Cmp.Lexicographic.{slice_cmp};
ghost use Rattle.el_env.specs.Name.{is_good_name};
ghost use Rattle.el_world.specs.Lawful.{is_piece};
ghost use Rattle.el_world.specs.World.{is_wait_status};
ghost use Rattle.el_record.specs.Reading.{bytes_of_front};
ghost use Rattle.el_record.specs.TraceReading.{is_word, word_at, handle_at, pid_at, ended_at, ended_by, given_at, given_by_letter, piped_at, piped_by_letter, found_at, found_by_letter, done_at, done_by_letter, mode_at, mode_by, each_at, words_at, env_at, end_at, started_at, started_by_letter, start_at, line_end, wait_at, opened_at, pipe_at, feed_at, read_at, write_at, close_at, enter_at, event_by, event_at, end_by, end_line, end_behind, run_end_at};
ghost use Rattle.el_record.specs.Read.{IsRead, end_record, status_at, exited_at, killed_at, opened_handle_at, pipe_ends_at, passing_at, is_dash_next, no_end_at, some_end_at, started_pid_at, variables_at};

use crate::RunEnd;
use crate::reader::{ReadFault, Reader};
use el_env::{Env, Variable, is_good_name};
use el_words::{Bytes, Word, Words};
use el_world::{Ended, Event, Fault, Handle, MAX_PIECE, Mode, Pid, PipeEnds, StartFault};
use std::alloc::Global;

/// Signals have the numbers from 1 to below this one.
const SIGNALS: u8 = 128;

/// An event's record: its letter, what it holds, and a newline.
pub(crate) fn event_at(alloc: Global, reader: &mut Reader<'_>) -> Result<Event, ReadFault>
    ensures { IsRead (event_at reader.old.rest.now) result reader.new.rest.now }
{
    let letter = reader.byte()?;
    let event = event_by(alloc, letter, reader)?;
    line_end(event, reader)
}

fn event_by(alloc: Global, letter: u8, reader: &mut Reader<'_>) -> Result<Event, ReadFault>
    ensures { IsRead (event_by letter reader.old.rest.now) result reader.new.rest.now }
{
    match letter {
        b'S' => start_at(alloc, reader),
        b'W' => wait_at(reader),
        b'O' => opened_at(alloc, reader),
        b'P' => pipe_at(reader),
        b'F' => feed_at(alloc, reader),
        b'R' => read_at(alloc, reader),
        b'T' => write_at(alloc, reader),
        b'C' => close_at(reader),
        b'D' => enter_at(alloc, reader),
        _ => Err(ReadFault::Absent),
    }
}

fn line_end(event: Event, reader: &mut Reader<'_>) -> Result<Event, ReadFault>
    ensures { IsRead (line_end event reader.old.rest.now) result reader.new.rest.now }
{
    let byte = reader.byte()?;
    if byte == b'\n' {
        return Ok(event);
    }
    Err(ReadFault::Absent)
}

fn start_at(alloc: Global, reader: &mut Reader<'_>) -> Result<Event, ReadFault>
    ensures { IsRead (start_at reader.old.rest.now) result reader.new.rest.now }
{
    let words = words_at(alloc, reader)?;
    let env = env_at(alloc, reader)?;
    let dir = word_at(alloc, reader)?;
    let input = end_at(reader)?;
    let output = end_at(reader)?;
    let error = end_at(reader)?;
    let answer = started_at(reader)?;
    Ok(Event::Start {
        words,
        env,
        dir,
        ends: [input, output, error],
        answer,
    })
}

fn wait_at(reader: &mut Reader<'_>) -> Result<Event, ReadFault>
    ensures { IsRead (wait_at reader.old.rest.now) result reader.new.rest.now }
{
    let pid = pid_at(reader)?;
    let answer = ended_at(reader)?;
    Ok(Event::Wait { pid, answer })
}

fn opened_at(alloc: Global, reader: &mut Reader<'_>) -> Result<Event, ReadFault>
    ensures { IsRead (opened_at reader.old.rest.now) result reader.new.rest.now }
{
    let dir = word_at(alloc, reader)?;
    let path = word_at(alloc, reader)?;
    let mode = mode_at(reader)?;
    let answer = given_at(reader)?;
    Ok(Event::Opened {
        dir,
        path,
        mode,
        answer,
    })
}

fn pipe_at(reader: &mut Reader<'_>) -> Result<Event, ReadFault>
    ensures { IsRead (pipe_at reader.old.rest.now) result reader.new.rest.now }
{
    let answer = piped_at(reader)?;
    Ok(Event::Pipe { answer })
}

fn feed_at(alloc: Global, reader: &mut Reader<'_>) -> Result<Event, ReadFault>
    ensures { IsRead (feed_at reader.old.rest.now) result reader.new.rest.now }
{
    let bytes = bytes_at(alloc, reader)?;
    let answer = given_at(reader)?;
    Ok(Event::Feed { bytes, answer })
}

fn read_at(alloc: Global, reader: &mut Reader<'_>) -> Result<Event, ReadFault>
    ensures { IsRead (read_at reader.old.rest.now) result reader.new.rest.now }
{
    let handle = handle_at(reader)?;
    let answer = found_at(alloc, reader)?;
    Ok(Event::Read { handle, answer })
}

fn write_at(alloc: Global, reader: &mut Reader<'_>) -> Result<Event, ReadFault>
    ensures { IsRead (write_at reader.old.rest.now) result reader.new.rest.now }
{
    let handle = handle_at(reader)?;
    let bytes = bytes_at(alloc, reader)?;
    let answer = done_at(reader)?;
    Ok(Event::Write {
        handle,
        bytes,
        answer,
    })
}

fn close_at(reader: &mut Reader<'_>) -> Result<Event, ReadFault>
    ensures { IsRead (close_at reader.old.rest.now) result reader.new.rest.now }
{
    let handle = handle_at(reader)?;
    Ok(Event::Close { handle })
}

fn enter_at(alloc: Global, reader: &mut Reader<'_>) -> Result<Event, ReadFault>
    ensures { IsRead (enter_at reader.old.rest.now) result reader.new.rest.now }
{
    let dir = word_at(alloc, reader)?;
    let path = word_at(alloc, reader)?;
    let answer = entered_at(alloc, reader)?;
    Ok(Event::Enter { dir, path, answer })
}

/// The end's record: its letters, what they hold, and a newline.
pub(crate) fn run_end_at(reader: &mut Reader<'_>) -> Result<RunEnd, ReadFault>
    ensures { IsRead (run_end_at reader.old.rest.now) result reader.new.rest.now }
{
    let letter = reader.byte()?;
    end_behind(letter, reader)
}

fn end_behind(letter: u8, reader: &mut Reader<'_>) -> Result<RunEnd, ReadFault>
    ensures { IsRead (end_behind letter reader.old.rest.now) result reader.new.rest.now }
{
    match letter {
        b'Z' => end_record(reader),
        _ => Err(ReadFault::Absent),
    }
}

fn end_record(reader: &mut Reader<'_>) -> Result<RunEnd, ReadFault>
    ensures { IsRead (end_record reader.old.rest.now) result reader.new.rest.now }
{
    let kind = reader.byte()?;
    let end = end_by(kind, reader)?;
    end_line(end, reader)
}

fn end_by(letter: u8, reader: &mut Reader<'_>) -> Result<RunEnd, ReadFault>
    ensures { IsRead (end_by letter reader.old.rest.now) result reader.new.rest.now }
{
    match letter {
        b's' => status_at(reader),
        b'l' => Ok(RunEnd::Spent),
        _ => Err(ReadFault::Absent),
    }
}

fn status_at(reader: &mut Reader<'_>) -> Result<RunEnd, ReadFault>
    ensures { IsRead (status_at reader.old.rest.now) result reader.new.rest.now }
{
    let code = reader.number_u8()?;
    Ok(RunEnd::Status(code))
}

fn end_line(end: RunEnd, reader: &mut Reader<'_>) -> Result<RunEnd, ReadFault>
    ensures { IsRead (end_line end reader.old.rest.now) result reader.new.rest.now }
{
    let byte = reader.byte()?;
    if byte == b'\n' {
        return Ok(end);
    }
    Err(ReadFault::Absent)
}

fn ended_at(reader: &mut Reader<'_>) -> Result<Result<Ended, Fault>, ReadFault>
    ensures { IsRead (ended_at reader.old.rest.now) result reader.new.rest.now }
{
    let letter = reader.byte()?;
    ended_by(letter, reader)
}

fn ended_by(letter: u8, reader: &mut Reader<'_>) -> Result<Result<Ended, Fault>, ReadFault>
    ensures { IsRead (ended_by letter reader.old.rest.now) result reader.new.rest.now }
{
    match letter {
        b'E' => exited_at(reader),
        b'K' => killed_at(reader),
        b'f' => Ok(Err(Fault::Failed)),
        _ => Err(ReadFault::Absent),
    }
}

fn exited_at(reader: &mut Reader<'_>) -> Result<Result<Ended, Fault>, ReadFault>
    ensures { IsRead (exited_at reader.old.rest.now) result reader.new.rest.now }
{
    let code = reader.number_u8()?;
    Ok(Ok(Ended::Exited(code)))
}

fn killed_at(reader: &mut Reader<'_>) -> Result<Result<Ended, Fault>, ReadFault>
    ensures { IsRead (killed_at reader.old.rest.now) result reader.new.rest.now }
{
    let signal = reader.number_u8()?;
    if is_signal(signal) {
        return Ok(Ok(Ended::Killed(signal)));
    }
    Err(ReadFault::Absent)
}

fn is_signal(number: u8) -> bool
    ensures { result ≡ is_wait_status (Ended.Killed number) }
{
    0 < number && number < SIGNALS
}

fn given_at(reader: &mut Reader<'_>) -> Result<Result<Handle, Fault>, ReadFault>
    ensures { IsRead (given_at reader.old.rest.now) result reader.new.rest.now }
{
    let letter = reader.byte()?;
    given_by_letter(letter, reader)
}

fn given_by_letter(letter: u8, reader: &mut Reader<'_>) -> Result<Result<Handle, Fault>, ReadFault>
    ensures { IsRead (given_by_letter letter reader.old.rest.now) result reader.new.rest.now }
{
    match letter {
        b'H' => opened_handle_at(reader),
        b'f' => Ok(Err(Fault::Failed)),
        _ => Err(ReadFault::Absent),
    }
}

fn opened_handle_at(reader: &mut Reader<'_>) -> Result<Result<Handle, Fault>, ReadFault>
    ensures { IsRead (opened_handle_at reader.old.rest.now) result reader.new.rest.now }
{
    let handle = handle_at(reader)?;
    Ok(Ok(handle))
}

fn piped_at(reader: &mut Reader<'_>) -> Result<Result<PipeEnds, Fault>, ReadFault>
    ensures { IsRead (piped_at reader.old.rest.now) result reader.new.rest.now }
{
    let letter = reader.byte()?;
    piped_by_letter(letter, reader)
}

fn piped_by_letter(
    letter: u8,
    reader: &mut Reader<'_>,
) -> Result<Result<PipeEnds, Fault>, ReadFault>
    ensures { IsRead (piped_by_letter letter reader.old.rest.now) result reader.new.rest.now }
{
    match letter {
        b'H' => pipe_ends_at(reader),
        b'f' => Ok(Err(Fault::Failed)),
        _ => Err(ReadFault::Absent),
    }
}

fn pipe_ends_at(reader: &mut Reader<'_>) -> Result<Result<PipeEnds, Fault>, ReadFault>
    ensures { IsRead (pipe_ends_at reader.old.rest.now) result reader.new.rest.now }
{
    let first = handle_at(reader)?;
    let second = handle_at(reader)?;
    Ok(Ok(PipeEnds {
        reader: first,
        writer: second,
    }))
}

// What a read found.
fn found_at(alloc: Global, reader: &mut Reader<'_>) -> Result<Result<Bytes, Fault>, ReadFault>
    ensures { IsRead (found_at is_piece reader.old.rest.now) result reader.new.rest.now }
{
    let letter = reader.byte()?;
    found_by_letter(alloc, letter, reader)
}

fn found_by_letter(
    alloc: Global,
    letter: u8,
    reader: &mut Reader<'_>,
) -> Result<Result<Bytes, Fault>, ReadFault>
    ensures { IsRead (found_by_letter is_piece letter reader.old.rest.now) result reader.new.rest.now }
{
    match letter {
        b'B' => piece_at(alloc, reader),
        b'f' => Ok(Err(Fault::Failed)),
        _ => Err(ReadFault::Absent),
    }
}

fn piece_at(alloc: Global, reader: &mut Reader<'_>) -> Result<Result<Bytes, Fault>, ReadFault>
    ensures { IsRead (passing_at is_piece reader.old.rest.now) result reader.new.rest.now }
{
    let bytes = reader.netstring()?;
    if is_piece(bytes) {
        let piece = Bytes::from_slice(alloc, bytes)?;
        return Ok(Ok(piece));
    }
    Err(ReadFault::Absent)
}

// Whether one read may find so much.
fn is_piece(bytes: &[u8]) -> bool
    ensures { result ≡ is_piece bytes.now }
{
    bytes.len() <= MAX_PIECE
}

// The directory that an enter found.
fn entered_at(alloc: Global, reader: &mut Reader<'_>) -> Result<Result<Word, Fault>, ReadFault>
    ensures { IsRead (found_at is_word reader.old.rest.now) result reader.new.rest.now }
{
    let letter = reader.byte()?;
    entered_by_letter(alloc, letter, reader)
}

fn entered_by_letter(
    alloc: Global,
    letter: u8,
    reader: &mut Reader<'_>,
) -> Result<Result<Word, Fault>, ReadFault>
    ensures { IsRead (found_by_letter is_word letter reader.old.rest.now) result reader.new.rest.now }
{
    match letter {
        b'B' => dir_at(alloc, reader),
        b'f' => Ok(Err(Fault::Failed)),
        _ => Err(ReadFault::Absent),
    }
}

fn dir_at(alloc: Global, reader: &mut Reader<'_>) -> Result<Result<Word, Fault>, ReadFault>
    ensures { IsRead (passing_at is_word reader.old.rest.now) result reader.new.rest.now }
{
    let dir = word_at(alloc, reader)?;
    Ok(Ok(dir))
}

fn done_at(reader: &mut Reader<'_>) -> Result<Result<(), Fault>, ReadFault>
    ensures { IsRead (done_at reader.old.rest.now) result reader.new.rest.now }
{
    let letter = reader.byte()?;
    done_by_letter(letter)
}

fn done_by_letter(letter: u8) -> Result<Result<(), Fault>, ReadFault>
    ensures { (rest : List ℕ) → IsRead (done_by_letter letter rest) result rest }
{
    match letter {
        b'k' => Ok(Ok(())),
        b'f' => Ok(Err(Fault::Failed)),
        _ => Err(ReadFault::Absent),
    }
}

fn started_at(reader: &mut Reader<'_>) -> Result<Result<Pid, StartFault>, ReadFault>
    ensures { IsRead (started_at reader.old.rest.now) result reader.new.rest.now }
{
    let letter = reader.byte()?;
    started_by_letter(letter, reader)
}

fn started_by_letter(
    letter: u8,
    reader: &mut Reader<'_>,
) -> Result<Result<Pid, StartFault>, ReadFault>
    ensures { IsRead (started_by_letter letter reader.old.rest.now) result reader.new.rest.now }
{
    match letter {
        b'P' => started_pid_at(reader),
        b'n' => Ok(Err(StartFault::NotFound)),
        b'x' => Ok(Err(StartFault::NotStartable)),
        b'f' => Ok(Err(StartFault::Failed)),
        _ => Err(ReadFault::Absent),
    }
}

fn started_pid_at(reader: &mut Reader<'_>) -> Result<Result<Pid, StartFault>, ReadFault>
    ensures { IsRead (started_pid_at reader.old.rest.now) result reader.new.rest.now }
{
    let pid = pid_at(reader)?;
    Ok(Ok(pid))
}

fn mode_at(reader: &mut Reader<'_>) -> Result<Mode, ReadFault>
    ensures { IsRead (mode_at reader.old.rest.now) result reader.new.rest.now }
{
    let letter = reader.byte()?;
    mode_by(letter)
}

fn mode_by(letter: u8) -> Result<Mode, ReadFault>
    ensures { (rest : List ℕ) → IsRead (mode_by letter rest) result rest }
{
    match letter {
        b'r' => Ok(Mode::Read),
        b'w' => Ok(Mode::Write),
        b'u' => Ok(Mode::Update),
        b'a' => Ok(Mode::Append),
        b'c' => Ok(Mode::AppendOld),
        b'x' => Ok(Mode::Create),
        _ => Err(ReadFault::Absent),
    }
}

// An end of a started process.
fn end_at(reader: &mut Reader<'_>) -> Result<Option<Handle>, ReadFault>
    ensures { IsRead (end_at reader.old.rest.now) result reader.new.rest.now }
{
    if is_dash_next(reader.rest) {
        return no_end_at(reader);
    }
    some_end_at(reader)
}

fn is_dash_next(bytes: &[u8]) -> bool
    ensures { result ≡ is_dash_next bytes.now }
{
    match bytes {
        [byte, ..] => *byte == b'-',
        [] => false,
    }
}

fn no_end_at(reader: &mut Reader<'_>) -> Result<Option<Handle>, ReadFault>
    ensures { IsRead (no_end_at reader.old.rest.now) result reader.new.rest.now }
{
    reader.byte()?;
    Ok(None)
}

fn some_end_at(reader: &mut Reader<'_>) -> Result<Option<Handle>, ReadFault>
    ensures { IsRead (some_end_at reader.old.rest.now) result reader.new.rest.now }
{
    let handle = handle_at(reader)?;
    Ok(Some(handle))
}

// How many words there are, which is one at least, and the words.
fn words_at(alloc: Global, reader: &mut Reader<'_>) -> Result<Words, ReadFault>
    ensures { IsRead (words_at reader.old.rest.now) result reader.new.rest.now }
{
    let count = reader.number()?;
    let words = each_at(alloc, count, reader)?;
    if has_first(&words) {
        return Ok(words);
    }
    Err(ReadFault::Absent)
}

fn has_first(words: &Words) -> bool
    ensures { result ≡ nat_lt 0 (length words.now) }
{
    0 < words.len()
}

fn each_at(alloc: Global, count: u64, reader: &mut Reader<'_>) -> Result<Words, ReadFault>
    ensures { IsRead (each_at count reader.old.rest.now) result reader.new.rest.now }
{
    let mut words = Words::new(alloc);
    for _ in 0..count {
        let word = reader.word()?;
        words.push(word)?;
    }
    Ok(words)
}

// How many variables there are, and the variables, whose names rise.
fn env_at(alloc: Global, reader: &mut Reader<'_>) -> Result<Env, ReadFault>
    ensures { IsRead (env_at reader.old.rest.now) result reader.new.rest.now }
{
    let count = reader.number()?;
    variables_at(alloc, count, reader)
}

// Out of line, so that the records without variables are read in line.
#[inline(never)]
fn variables_at(alloc: Global, count: u64, reader: &mut Reader<'_>) -> Result<Env, ReadFault>
    ensures { IsRead (variables_at [] count reader.old.rest.now) result reader.new.rest.now }
{
    let mut variables = Vec::new(alloc);
    let mut last: &[u8] = &[];
    for _ in 0..count {
        let name = reader.word()?;
        let value = reader.word()?;
        if !is_next_name(last, name) {
            return Err(ReadFault::Absent);
        }
        variables.push(Variable { name, value })?;
        last = name;
    }
    Ok(Env::inherited(alloc, variables)?)
}

// Whether a name is a good one above the last.
fn is_next_name(last: &[u8], name: &[u8]) -> bool
    ensures { result ≡ is_good_name name.now && is_lt (slice_cmp nat_cmp last.now name.now) }
{
    is_good_name(name) && rises(last, name)
}

fn rises(last: &[u8], name: &[u8]) -> bool
    ensures { result ≡ is_lt (slice_cmp nat_cmp last.now name.now) }
{
    last < name
}

fn handle_at(reader: &mut Reader<'_>) -> Result<Handle, ReadFault>
    ensures { IsRead (handle_at reader.old.rest.now) result reader.new.rest.now }
{
    let number = reader.number()?;
    Ok(Handle { number })
}

fn pid_at(reader: &mut Reader<'_>) -> Result<Pid, ReadFault>
    ensures { IsRead (pid_at reader.old.rest.now) result reader.new.rest.now }
{
    let number = reader.number_u32()?;
    Ok(Pid { number })
}

fn word_at(alloc: Global, reader: &mut Reader<'_>) -> Result<Word, ReadFault>
    ensures { IsRead (word_at reader.old.rest.now) result reader.new.rest.now }
{
    let word = reader.word()?;
    Ok(Word::of(alloc, word)?)
}

fn bytes_at(alloc: Global, reader: &mut Reader<'_>) -> Result<Bytes, ReadFault>
    ensures { IsRead (bytes_of_front reader.old.rest.now) result reader.new.rest.now }
{
    let bytes = reader.netstring()?;
    Ok(Bytes::from_slice(alloc, bytes)?)
}
