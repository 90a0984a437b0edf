//! What the process was started with: its words, its environment, its directory, and which of its streams are closed.
ghost use Rattle.std.specs.Prelude.{◌≡◌, [], slice_index_or, IfOk};
ghost use Rattle.std.specs.Io.{WritesAtMost};

use crate::binary::{Binary, Runner};
use crate::lack::Lack;
use crate::null_streams::NullStreams;
use crate::parent::Parent;
use crate::variables::variables_of;
use el_env::Env as Variables;
use el_words::{NoMemory, Word, Words};
use std::alloc::{Alloc, Global};
use std::env::FillError;
use std::fs::File;
use std::rt::{Env, Files};

// Enough for most words; a longer one makes the buffer grow.
const FIRST_LENGTH: usize = 4096;

/// What a run is given.
#[derive(Drop)]
pub struct Given {
    /// Its words, the first of which is the name by which it was called.
    pub words: Words,
    /// The variables.
    pub env: Variables,
    /// The current directory.
    pub dir: Word,
    /// What children are given of it.
    pub parent: Parent,
    /// What stands at the closed ones of the numbers 0 to 2.
    pub null: NullStreams,
}

/// Collects all of it from `rt`, for a process whose programs of this project are run by this binary. `Refused`
/// where the system doesn't name the current directory, or the name is longer than the buffer for the words, of 4,096 bytes
/// or more. `Failed` where a word or an entry of the environment holds a NUL, or fits no buffer. `NoMemory` where there is no memory for what is collected.
pub fn collect(
    rt: &(impl Env + Files<File = File> + Alloc<A = Global>),
    runner: Runner,
) -> Result<Given, Lack> {
    let alloc = rt.alloc();
    let null = NullStreams::open(rt, alloc)?;
    let mut buffer = vec![in alloc; 0u8; FIRST_LENGTH]?;
    let words = read_all(rt, Item::Argument, alloc, &mut buffer)?;
    let dir = read_directory(rt, alloc, &mut buffer)?;
    let entries = read_all(rt, Item::Variable, alloc, &mut buffer)?;
    let env = variables_of(alloc, &entries)?;
    let parent = parent_of(rt, runner, &words, &dir)?;
    Ok(Given {
        words,
        env,
        dir,
        parent,
        null,
    })
}

// What a process starts others with that was called by these words in this directory.
fn parent_of(
    rt: &(impl Files<File = File> + Alloc<A = Global>),
    runner: Runner,
    words: &Words,
    dir: &Word,
) -> Result<Parent, NoMemory>
    ensures { IfOk result (λ parent. parent.dir ≡ dir.now) }
{
    let name = first_word(rt.alloc(), words)?;
    Ok(Parent {
        binary: Binary::find(rt, runner, name.as_bytes(), dir.as_bytes())?,
        dir: dir.copy()?,
    })
}

#[derive(Clone, Copy)]
enum Item {
    Argument,
    Variable,
}

// All items of the kind, in their order.
fn read_all(rt: &impl Env, item: Item, alloc: Global, buffer: &mut Vec<u8>) -> Result<Words, Lack> {
    let mut words = Words::new(alloc);
    for place in 0..usize::MAX {
        let Some(length) = read(rt, item, place, buffer)? else {
            break;
        };
        let bytes = buffer.get(..length).ok_or(Lack::Failed)?;
        if bytes.contains(&0) {
            return Err(Lack::Failed);
        }
        words.push(bytes)?;
    }
    Ok(words)
}

// The length of the item, which then stands in the buffer; None where there is none.
fn read(
    rt: &impl Env,
    item: Item,
    place: usize,
    buffer: &mut Vec<u8>,
) -> Result<Option<usize>, Lack> {
    for _ in 0..usize::BITS {
        match fill(rt, item, place, buffer.as_mut_slice()) {
            Ok(length) => return Ok(Some(length)),
            Err(FillError::NotPresent) => return Ok(None),
            Err(FillError::TooLong) => {
                let longer = buffer.len().saturating_mul(2);
                buffer.resize(longer, 0)?;
            }
        }
    }
    Err(Lack::Failed)
}

fn fill(rt: &impl Env, item: Item, place: usize, buffer: &mut [u8]) -> Result<usize, FillError>
    ensures { WritesAtMost result buffer.new }
{
    match item {
        Item::Argument => rt.arg(place, buffer),
        Item::Variable => rt.var_at(place, buffer),
    }
}

fn read_directory(rt: &impl Env, alloc: Global, buffer: &mut Vec<u8>) -> Result<Word, Lack> {
    let length = rt.current_dir(buffer.as_mut_slice())?;
    let bytes = buffer.get(..length).ok_or(Lack::Failed)?;
    Ok(Word::from_bytes(alloc, bytes)?)
}

// The first word, or the empty one where there is none.
fn first_word(alloc: Global, words: &Words) -> Result<Word, NoMemory>
    ensures { IfOk result (λ word. word ≡ slice_index_or words.now 0 []) }
{
    if words.is_empty() {
        return Ok(Word::new(alloc));
    }
    Word::of(alloc, words.at(0))
}
