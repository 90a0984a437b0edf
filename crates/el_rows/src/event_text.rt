//! Events as rows write them.

use el_env::Env;
use el_words::Words;
use el_world::{Ended, Event, Handle, PipeEnds};
use percent_encoding::{AsciiSet, CONTROLS, ascii_set, percent_encode};
use std::alloc::{AllocError, Global};
use std::fmt::{self, Debug, Display, Formatter, Write};

// What is written as `%` and two digits between quotes, besides bytes outside ASCII.
const ESCAPED: AsciiSet = ascii_set!(CONTROLS.add(b'"').add(b'%'));

/// An event in words: the call, its arguments, and behind `->` its answer, or why it has none. Each of
/// these details stands on a line of its own, for none of them holds the end of a line:
///
///     Start ["a", " b"] {"A=1"} in "/" (0 1 -) -> 100
///     Wait 100 -> Exited 0
///     Opened "f" in "/" Read -> 3
///     Pipe -> 3 4
///     Feed "bytes" -> 3
///     Read 3 -> "bytes"
///     Write 2 "bytes" -> Ok
///     Close 3
///     Enter "d" in "/" -> "/d"
#[derive(Drop)]
pub struct EventText<'a>(pub &'a Event);

impl EventText<'_> {
    /// The text on one line.
    pub fn on_one_line(&self, alloc: Global) -> Result<String, AllocError> {
        self.to_string(alloc)?.replace(alloc, '\n', " ")
    }

    /// Whether `line` is the text on one line, or that less some of its details.
    pub fn fits(&self, alloc: Global, line: &str) -> Result<bool, AllocError> {
        let text = self.to_string(alloc)?;
        let mut rest = line.as_bytes();
        for detail in text.lines() {
            if let Some(behind) = strip_detail(rest, detail.as_bytes()) {
                rest = behind;
            }
        }
        Ok(rest.is_empty())
    }

    /// The call with its arguments, without its answer.
    pub fn call(&self, alloc: Global) -> Result<String, AllocError> {
        CallText(self.0).to_string(alloc)
    }

    fn write_call<W: Write>(&self, f: &mut Formatter<W>) -> fmt::Result {
        match self.0 {
            Event::Start {
                words,
                env,
                dir,
                ends,
                ..
            } => {
                write!(f, "Start\n{}\n{}\n", WordList(words), Variables(env))?;
                write!(f, "in {}\n{}", Quoted(dir.as_bytes()), Ends(ends))
            }
            Event::Wait { pid, .. } => write!(f, "Wait\n{}", pid.number),
            Event::Opened {
                dir,
                path,
                mode,
                ..
            } => {
                write!(f, "Opened\n{}\n", Quoted(path.as_bytes()))?;
                write!(f, "in {}\n{mode:?}", Quoted(dir.as_bytes()))
            }
            Event::Pipe { .. } => write!(f, "Pipe"),
            Event::Feed { bytes, .. } => write!(f, "Feed\n{}", Quoted(bytes.as_bytes())),
            Event::Read { handle, .. } => write!(f, "Read\n{}", handle.number),
            Event::Write { handle, bytes, .. } => {
                write!(f, "Write\n{}\n{}", handle.number, Quoted(bytes.as_bytes()))
            }
            Event::Close { handle } => write!(f, "Close\n{}", handle.number),
            Event::Enter { dir, path, .. } => {
                write!(f, "Enter\n{}\n", Quoted(path.as_bytes()))?;
                write!(f, "in {}", Quoted(dir.as_bytes()))
            }
        }
    }

    fn write_answer<W: Write>(&self, f: &mut Formatter<W>) -> fmt::Result {
        match self.0 {
            Event::Start { answer, .. } => answered(f, answer.map(|pid| pid.number)),
            Event::Wait { answer, .. } => answered(f, answer.map(EndedText)),
            Event::Opened { answer, .. } => answered(f, answer.map(|handle| handle.number)),
            Event::Pipe { answer } => answered(f, answer.map(PipeText)),
            Event::Feed { answer, .. } => answered(f, answer.map(|handle| handle.number)),
            Event::Read { answer, .. } => {
                answered(f, answer.as_ref().map(|bytes| Quoted(bytes.as_bytes())))
            }
            Event::Write { answer, .. } => answered(f, answer.map(|()| "Ok")),
            Event::Close { .. } => Ok(()),
            Event::Enter { answer, .. } => {
                answered(f, answer.as_ref().map(|dir| Quoted(dir.as_bytes())))
            }
        }
    }
}

impl Display for EventText<'_> {
    fn fmt<W: Write>(&self, f: &mut Formatter<W>) -> fmt::Result {
        self.write_call(f)?;
        self.write_answer(f)
    }
}

// The call alone.
#[derive(Drop)]
struct CallText<'a>(&'a Event);

impl Display for CallText<'_> {
    fn fmt<W: Write>(&self, f: &mut Formatter<W>) -> fmt::Result {
        EventText(self.0).write_call(f)
    }
}

// What stands in `line` behind `detail` and a space; None where it doesn't begin with that detail.
fn strip_detail<'a>(line: &'a [u8], detail: &[u8]) -> Option<&'a [u8]> {
    let behind = line.strip_prefix(detail)?;
    if behind.is_empty() {
        return Some(behind);
    }
    behind.strip_prefix(b" ")
}

fn answered<T: Display + Drop, E: Debug + Drop, W: Write>(
    f: &mut Formatter<W>,
    answer: Result<T, E>,
) -> fmt::Result {
    match answer {
        Ok(value) => write!(f, "\n-> {value}"),
        Err(fault) => write!(f, "\n-> {fault:?}"),
    }
}

#[derive(Drop)]
struct Quoted<'a>(&'a [u8]);

impl Display for Quoted<'_> {
    fn fmt<W: Write>(&self, f: &mut Formatter<W>) -> fmt::Result {
        write!(f, "\"{}\"", percent_encode(self.0, ESCAPED))
    }
}

// `["a", "b c"]`
#[derive(Drop)]
struct WordList<'a>(&'a Words);

impl Display for WordList<'_> {
    fn fmt<W: Write>(&self, f: &mut Formatter<W>) -> fmt::Result {
        f.write_str("[")?;
        for (place, word) in self.0.iter().enumerate() {
            let separator = if place == 0 { "" } else { ", " };
            write!(f, "{separator}{}", Quoted(word))?;
        }
        f.write_str("]")
    }
}

// `{"A=1", "B=2"}`, in the order of the names
#[derive(Drop)]
struct Variables<'a>(&'a Env);

impl Display for Variables<'_> {
    fn fmt<W: Write>(&self, f: &mut Formatter<W>) -> fmt::Result {
        let sorted = self.0.sorted().map_err(|_| fmt::Error)?;
        f.write_str("{")?;
        for (place, variable) in sorted.iter().enumerate() {
            let separator = if place == 0 { "" } else { ", " };
            let name = percent_encode(variable.name, ESCAPED);
            let value = percent_encode(variable.value, ESCAPED);
            write!(f, "{separator}\"{name}={value}\"")?;
        }
        f.write_str("}")
    }
}

// `(0 1 -)`
#[derive(Drop)]
struct Ends<'a>(&'a [Option<Handle>; 3]);

impl Display for Ends<'_> {
    fn fmt<W: Write>(&self, f: &mut Formatter<W>) -> fmt::Result {
        let [input, output, error] = *self.0;
        write!(f, "({} {} {})", End(input), End(output), End(error))
    }
}

#[derive(Drop)]
struct End(Option<Handle>);

impl Display for End {
    fn fmt<W: Write>(&self, f: &mut Formatter<W>) -> fmt::Result {
        match self.0 {
            Some(handle) => write!(f, "{}", handle.number),
            None => f.write_str("-"),
        }
    }
}

#[derive(Drop)]
struct EndedText(Ended);

impl Display for EndedText {
    fn fmt<W: Write>(&self, f: &mut Formatter<W>) -> fmt::Result {
        match self.0 {
            Ended::Exited(code) => write!(f, "Exited {code}"),
            Ended::Killed(signal) => write!(f, "Killed {signal}"),
        }
    }
}

#[derive(Drop)]
struct PipeText(PipeEnds);

impl Display for PipeText {
    fn fmt<W: Write>(&self, f: &mut Formatter<W>) -> fmt::Result {
        write!(f, "{} {}", self.0.reader.number, self.0.writer.number)
    }
}
