//! Reads a table of rows.
//!
//! A line is an item's name, a space and its value. `run NAME` begins a row, and the lines behind it
//! say what it holds; a line that is empty or begins with `#` says nothing. `%` and two hexadecimal
//! digits stand for a byte.
//!
//!     run echo a
//!     word execlineb                one word of the vector; so once or more
//!     sample 4                      the same, which is the text of elcheck's sample of so many lines
//!     spaces 1048577                the same, which is so many spaces
//!     variable NAME=VALUE           of the environment; none or more
//!     dir /                         the directory, where it isn't `/`
//!     budget 5                      the units that there are, where it isn't the greatest budget
//!     answer Exited 3               what the World answers: Plain, Fault, NotFound, NotStartable,
//!                                   Exited N, Killed N, Piece BYTES or Path WORD; none or more
//!     fuse 3                        the number of the call that fails
//!     log Wait 100 -> Exited 3      an event of the whole log, in the notation of `EventText`, or
//!     tail Wait 100 -> Exited 3     one of its last events; none or more
//!     count 3001 Start              how many events of the log are such; none or more, in place of `log` and `tail`
//!     end 3                         the status, or Spent
//!     units 1                       how many units it takes, where that is compared
//!     faults 0                      how many calls fail, where that is compared

use crate::row::{Count, Row, Run};
use el_app::{Finish, MAX_SAMPLE, sample};
use el_env::EnvFault;
use el_words::{Bytes, NoMemory, Word, WordFault};
use el_world::{Answer, Ended};
use percent_encoding::percent_decode_str;
use std::alloc::{AllocError, AllocFailed, Global};
use std::num::ParseIntError;
use thiserror::Error;

/// A line that says nothing of a row.
#[derive(Debug, Drop, Error)]
#[error("line {line}: {fault}")]
pub struct BadLine {
    line: usize,
    fault: RowFault,
}

/// Why a line says nothing.
#[derive(Debug, Drop, Error)]
pub enum RowFault {
    #[error("no row has begun")]
    NoRow,
    #[error("unknown item")]
    UnknownItem,
    #[error("unknown answer")]
    UnknownAnswer,
    #[error("a variable without =")]
    NoValue,
    #[error("a count without a line")]
    NoLine,
    #[error("a sample of no lines, or of too many")]
    NoSample,
    #[error("{0}")]
    BadNumber(#[from] ParseIntError),
    #[error("{0}")]
    BadWord(#[from] WordFault),
    #[error("{0}")]
    BadVariable(#[from] EnvFault),
    #[error("no memory")]
    NoMemory,
}

impl From<NoMemory> for RowFault {
    fn from(_: NoMemory) -> Self {
        RowFault::NoMemory
    }
}

impl From<AllocError> for RowFault {
    fn from(_: AllocError) -> Self {
        RowFault::NoMemory
    }
}

impl<T: Drop> From<AllocFailed<T>> for RowFault {
    fn from(_: AllocFailed<T>) -> Self {
        RowFault::NoMemory
    }
}

/// Puts the rows of a table, in its order, behind `rows`. A line that says nothing of a row is an error.
pub fn read_rows(alloc: Global, table: &str, rows: &mut Vec<Row>) -> Result<(), BadLine> {
    for (place, line) in table.lines().enumerate() {
        if let Err(fault) = read_line(alloc, line, rows) {
            return Err(BadLine {
                line: place + 1,
                fault,
            });
        }
    }
    Ok(())
}

fn read_line(alloc: Global, line: &str, rows: &mut Vec<Row>) -> Result<(), RowFault> {
    if line.is_empty() || line.starts_with('#') {
        return Ok(());
    }
    let (item, value) = line.split_once(' ').unwrap_or((line, ""));
    if item == "run" {
        rows.push(Row {
            name: String::from_str(alloc, value)?,
            run: Run::new(alloc)?,
        })?;
        return Ok(());
    }
    match rows.last_mut() {
        Some(row) => read_item(alloc, item, value, &mut row.run),
        None => Err(RowFault::NoRow),
    }
}

fn read_item(alloc: Global, item: &str, value: &str, run: &mut Run) -> Result<(), RowFault> {
    match item {
        "word" => run.words.push(word_of(alloc, value)?.as_bytes())?,
        "sample" => read_sample(alloc, value, run)?,
        "spaces" => read_spaces(alloc, value, run)?,
        "variable" => read_variable(alloc, value, run)?,
        "dir" => run.dir = word_of(alloc, value)?,
        "budget" => run.budget = value.parse()?,
        "answer" => run.answers.push(answer_of(alloc, value)?)?,
        "fuse" => run.fuse = Some(value.parse()?),
        "log" => run.log.events.push(String::from_str(alloc, value)?)?,
        "tail" => {
            run.log.is_tail = true;
            run.log.events.push(String::from_str(alloc, value)?)?;
        }
        "count" => run.log.counts.push(count_of(alloc, value)?)?,
        "end" => run.end = Some(end_of(value)?),
        "units" => run.units = Some(value.parse()?),
        "faults" => run.faults = Some(value.parse()?),
        _ => return Err(RowFault::UnknownItem),
    }
    Ok(())
}

fn read_sample(alloc: Global, value: &str, run: &mut Run) -> Result<(), RowFault> {
    let lines: u64 = value.parse()?;
    if !(1..=MAX_SAMPLE).contains(&lines) {
        return Err(RowFault::NoSample);
    }
    let script = Word::from_bytes(alloc, sample(alloc, lines)?.as_bytes())?;
    Ok(run.words.push(script.as_bytes())?)
}

fn read_spaces(alloc: Global, value: &str, run: &mut Run) -> Result<(), RowFault> {
    let spaces = " ".repeat(alloc, value.parse()?)?;
    let script = Word::from_bytes(alloc, spaces.as_bytes())?;
    Ok(run.words.push(script.as_bytes())?)
}

fn read_variable(alloc: Global, value: &str, run: &mut Run) -> Result<(), RowFault> {
    let (name, value) = value.split_once('=').ok_or(RowFault::NoValue)?;
    Ok(run.env.set(word_of(alloc, name)?, word_of(alloc, value)?)?)
}

fn count_of(alloc: Global, value: &str) -> Result<Count, RowFault> {
    let (events, line) = value.split_once(' ').ok_or(RowFault::NoLine)?;
    Ok(Count {
        events: events.parse()?,
        line: String::from_str(alloc, line)?,
    })
}

fn answer_of(alloc: Global, value: &str) -> Result<Answer, RowFault> {
    let (answer, detail) = value.split_once(' ').unwrap_or((value, ""));
    Ok(match answer {
        "Plain" => Answer::Plain,
        "Fault" => Answer::Fault,
        "NotFound" => Answer::NotFound,
        "NotStartable" => Answer::NotStartable,
        "Exited" => Answer::Ended(Ended::Exited(detail.parse()?)),
        "Killed" => Answer::Ended(Ended::Killed(detail.parse()?)),
        "Piece" => Answer::Piece(Bytes::from_slice(alloc, &bytes_of(alloc, detail)?)?),
        "Path" => Answer::Path(word_of(alloc, detail)?),
        _ => return Err(RowFault::UnknownAnswer),
    })
}

fn end_of(value: &str) -> Result<Finish, RowFault> {
    Ok(match value {
        "Spent" => Finish::Spent,
        _ => Finish::Status(value.parse()?),
    })
}

fn word_of(alloc: Global, text: &str) -> Result<Word, RowFault> {
    Ok(Word::from_bytes(alloc, &bytes_of(alloc, text)?)?)
}

fn bytes_of(alloc: Global, text: &str) -> Result<Vec<u8>, AllocError> {
    let mut bytes = Vec::new(alloc);
    percent_decode_str(text).append_to(&mut bytes)?;
    Ok(bytes)
}
