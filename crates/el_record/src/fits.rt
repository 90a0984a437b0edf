//! What a trace's text can hold. Most of these functions do nothing but tell it to a proof.
ghost use Rattle.std.specs.Prelude.{◌≡◌, ◌<◌, ◌^◌, true, length, OnOk, IfOk};
ghost use Rattle.el_world.specs.Lawful.{is_lawful, are_lawful};
ghost use Rattle.el_world.specs.Log.{events_of};
ghost use Rattle.el_world.specs.declared.event.Event.TheVariants.{Start as start_event, Wait as wait_event, Opened as opened_event, Pipe as pipe_event, Feed as feed_event, Read as read_event, Write as write_event, Enter as enter_event};
ghost use Rattle.el_record.specs.Recordable.{IsEnd, IsWordText, AreWordTexts, IsRecordable, AreRecordable, has_word, have_words};
ghost use Rattle.el_record.specs.Fits.{AreVariables, AreThreeEnds, HasByte, HasStartParts, IsTellable};

use el_env::{Env, Variable};
use el_words::{Bytes, NoMemory, Word, Words};
use el_world::{Ended, Event, Fault, Handle, Log, Mode, Pid, PipeEnds, StartFault};

/// A trace's text can hold the events of a log, and so reads back as them, where a world may tell each event and
/// each start has a word. It looks at the variables of each start, for which it takes memory.
pub fn log_fits(log: &Log) -> Result<(), NoMemory>
    requires lawful { are_lawful (events_of log.now) ≡ true }
    requires words { have_words (events_of log.now) ≡ true }
    ensures { OnOk result (AreRecordable (events_of log.now)) }
{
    for place in 0..log.len() {
        let Some(event) = log.get(place) else {
            unreachable!();
        };
        lawful_fits(event)?;
    }
    Ok(())
}

fn lawful_fits(event: &Event) -> Result<(), NoMemory>
    requires lawful { is_lawful event.now ≡ true }
    requires word { has_word event.now ≡ true }
    ensures { OnOk result (IsRecordable event.now) }
{
    start_parts_fit(event)?;
    event_fits(event);
    Ok(())
}

fn start_parts_fit(event: &Event) -> Result<(), NoMemory>
    requires { has_word event.now ≡ true }
    ensures { OnOk result (HasStartParts event.now) }
{
    match event {
        Event::Start { env, .. } => variables_fit(env),
        Event::Wait { .. }
        | Event::Opened { .. }
        | Event::Pipe { .. }
        | Event::Feed { .. }
        | Event::Read { .. }
        | Event::Write { .. }
        | Event::Close { .. }
        | Event::Enter { .. } => Ok(()),
    }
}

/// The event can be written, where a world may tell it, and where it is a start, its variables can be.
pub(crate) fn event_fits(event: &Event)
    requires { IsTellable event.now }
    ensures { IsRecordable event.now }
{
    match event {
        Event::Start {
            words,
            env,
            dir,
            ends,
            answer,
        } => start_fits(words, env, dir, ends, answer),
        Event::Wait { pid, answer } => wait_fits(*pid, answer),
        Event::Opened {
            dir,
            path,
            mode,
            answer,
        } => opened_fits(dir, path, *mode, answer),
        Event::Pipe { answer } => pipe_fits(answer),
        Event::Feed { bytes, answer } => feed_fits(bytes, answer),
        Event::Read { handle, answer } => read_fits(*handle, answer),
        Event::Write {
            handle,
            bytes,
            answer,
        } => write_fits(*handle, bytes, answer),
        Event::Close { handle } => handle_fits(*handle),
        Event::Enter { dir, path, answer } => enter_fits(dir, path, answer),
    }
}

/// A copy of the variables, where they can be written.
pub(crate) fn copy_of_variables(env: &Env) -> Result<Env, NoMemory>
    ensures same { IfOk result (λ copy. copy ≡ env.now) }
    ensures fits { OnOk result (AreVariables env.now) }
{
    variables_fit(env)?;
    env.copy()
}

// The variables can be written: each of them is looked at.
fn variables_fit(env: &Env) -> Result<(), NoMemory>
    ensures { OnOk result (AreVariables env.now) }
{
    env.names_are_good();
    let variables = env.sorted()?;
    for variable in &variables {
        variable_fits(variable);
    }
    Ok(())
}

fn variable_fits(variable: &Variable<'_>)
    ensures name { IsWordText variable.now.name.now }
    ensures value { IsWordText variable.now.value.now }
{
    let _name = variable.name;
    let _value = variable.value;
}

fn start_fits(
    words: &Words,
    env: &Env,
    dir: &Word,
    ends: &[Option<Handle>; 3],
    answer: &Result<Pid, StartFault>,
)
    requires { IsTellable (start_event words.now env.now dir.now ends.now answer.now) }
    ensures { IsRecordable (start_event words.now env.now dir.now ends.now answer.now) }
{
    let _env = env;
    words_fit(words);
    word_fits(dir);
    ends_fit(ends);
    if let Ok(pid) = answer {
        pid_fits(*pid);
    }
}

fn wait_fits(pid: Pid, answer: &Result<Ended, Fault>)
    requires { is_lawful (wait_event pid answer.now) ≡ true }
    ensures { IsRecordable (wait_event pid answer.now) }
{
    pid_fits(pid);
    if let Ok(ended) = answer {
        ended_fits(*ended);
    }
}

fn opened_fits(dir: &Word, path: &Word, mode: Mode, answer: &Result<Handle, Fault>)
    requires { is_lawful (opened_event dir.now path.now mode answer.now) ≡ true }
    ensures { IsRecordable (opened_event dir.now path.now mode answer.now) }
{
    let _mode = mode;
    word_fits(dir);
    word_fits(path);
    if let Ok(handle) = answer {
        handle_fits(*handle);
    }
}

fn pipe_fits(answer: &Result<PipeEnds, Fault>)
    requires { is_lawful (pipe_event answer.now) ≡ true }
    ensures { IsRecordable (pipe_event answer.now) }
{
    if let Ok(ends) = answer {
        handle_fits(ends.reader);
        handle_fits(ends.writer);
    }
}

fn feed_fits(bytes: &Bytes, answer: &Result<Handle, Fault>)
    requires { is_lawful (feed_event bytes.now answer.now) ≡ true }
    ensures { IsRecordable (feed_event bytes.now answer.now) }
{
    bytes_fit(bytes);
    if let Ok(handle) = answer {
        handle_fits(*handle);
    }
}

fn read_fits(handle: Handle, answer: &Result<Bytes, Fault>)
    requires { is_lawful (read_event handle answer.now) ≡ true }
    ensures { IsRecordable (read_event handle answer.now) }
{
    handle_fits(handle);
    if let Ok(bytes) = answer {
        bytes_fit(bytes);
    }
}

fn write_fits(handle: Handle, bytes: &Bytes, answer: &Result<(), Fault>)
    requires { is_lawful (write_event handle bytes.now answer.now) ≡ true }
    ensures { IsRecordable (write_event handle bytes.now answer.now) }
{
    let _answer = answer;
    handle_fits(handle);
    bytes_fit(bytes);
}

fn enter_fits(dir: &Word, path: &Word, answer: &Result<Word, Fault>)
    requires { is_lawful (enter_event dir.now path.now answer.now) ≡ true }
    ensures { IsRecordable (enter_event dir.now path.now answer.now) }
{
    word_fits(dir);
    word_fits(path);
    if let Ok(found) = answer {
        word_fits(found);
    }
}

fn words_fit(words: &Words)
    ensures few { length words.now < 2 ^ 64 }
    ensures texts { AreWordTexts words.now }
{
    let _count = words.len();
    let _words = words.iter();
}

fn word_fits(word: &Word)
    ensures { IsWordText word.now }
{
    let _bytes = word.as_bytes();
}

fn bytes_fit(bytes: &Bytes)
    ensures { length bytes.now < 2 ^ 64 }
{
    let _count = bytes.len();
}

/// A handle can be written.
pub(crate) fn handle_fits(handle: Handle)
    ensures { handle.number < 2 ^ 64 }
{
    let _number = handle.number;
}

fn pid_fits(pid: Pid)
    ensures { pid.number < 2 ^ 32 }
{
    let _number = pid.number;
}

fn ended_fits(ended: Ended)
    ensures { HasByte ended }
{
    match ended {
        Ended::Exited(_code) => {}
        Ended::Killed(_signal) => {}
    }
}

fn ends_fit(ends: &[Option<Handle>; 3])
    ensures { AreThreeEnds ends.now }
{
    end_fits(ends[0]);
    end_fits(ends[1]);
    end_fits(ends[2]);
}

fn end_fits(end: Option<Handle>)
    ensures { IsEnd end }
{
    if let Some(handle) = end {
        handle_fits(handle);
    }
}
