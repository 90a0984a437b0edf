//! A value crunched, chomped and split.
ghost use Rattle.std.specs.Prelude.{◌≡◌, IfOk, IfErr, if◌then◌else◌};
ghost use Rattle.el_words.specs.Word.{HasNul};
ghost use Rattle.el_transform.specs.Crunching.{chomped};
ghost use Rattle.el_transform.specs.Transform.{Transforms, IsFault};
ghost use Rattle.el_transform.specs.Computed.{parted_by, rules_of, transformed, IsAnswer};

use crate::crunching::{chomp, crunch};
use crate::netstrings::read_netstrings;
use crate::splitting::split;
use el_words::{ByteSet, NoMemory, Word, Words};
use std::alloc::Global;
use thiserror::Error;

/// What is done to a value, in this order: crunching, chomping, splitting.
#[derive(Clone, Copy)]
pub struct How {
    /// Of each longest run of delimiters only the first byte is kept.
    pub crunch: bool,
    /// The last byte is removed where it is a delimiter.
    pub chomp: bool,
    /// A word ends at each delimiter. With no delimiters the value is a sequence of netstrings.
    pub split: bool,
    /// The delimiters.
    pub delims: ByteSet,
}

/// Why a value has no words.
#[derive(Clone, Copy, Debug, PartialEq, Eq, Error)]
pub enum TransformFault {
    /// No netstring begins at this place, up to which netstrings fill the value.
    #[error("bad netstring at {at}")]
    BadNetstring { at: usize },
    /// There is no memory for the words.
    #[error("no memory")]
    NoMemory,
}

impl From<NoMemory> for TransformFault {
    ghost use Rattle.el_transform.specs.declared.transforming.TransformFault.TheVariants.{NoMemory as no_memory};

    ghost from_gives = { λ _ e. e ≡ no_memory };

    fn from(_: NoMemory) -> Self {
        TransformFault::NoMemory
    }
}

/// The words of `value`.
///
/// Crunching, chomping and the letters are execline's (el_transform); which byte of a run stays, the
/// reading of the last word and malformed netstrings are this project's own. `BadNetstring` comes
/// exactly where splitting is asked for without delimiters, netstrings fill the value up to `at`, and
/// none begins there before the end. `NoMemory` comes where there is no memory for the words.
pub fn transform(alloc: Global, how: &How, value: &Word) -> Result<Words, TransformFault>
    ensures ok { IfOk result (Transforms how.now value.now) }
    ensures bad { IfErr result (IsFault how.now value.now) }
    ensures exact { IsAnswer (transformed how.now value.now) result }
{
    if how.crunch {
        let kept = crunch(alloc, &how.delims, value.as_bytes())?;
        chomp_and_split(alloc, how, &kept)
    } else {
        chomp_and_split(alloc, how, value.as_bytes())
    }
}

/// The words of bytes that are crunched already where it is asked for.
fn chomp_and_split(alloc: Global, how: &How, bytes: &[u8]) -> Result<Words, TransformFault>
    requires { HasNul bytes.now → ⊥ }
    ensures { IsAnswer (parted_by (rules_of how.now) (if how.now.chomp then chomped how.now.delims bytes.now else bytes.now)) result }
{
    if how.chomp {
        part(alloc, how, chomp(&how.delims, bytes))
    } else {
        part(alloc, how, bytes)
    }
}

/// The words of bytes that are crunched and chomped already where it is asked for.
fn part(alloc: Global, how: &How, bytes: &[u8]) -> Result<Words, TransformFault>
    requires { HasNul bytes.now → ⊥ }
    ensures { IsAnswer (parted_by (rules_of how.now) bytes.now) result }
{
    if !how.split {
        let mut words = Words::new(alloc);
        words.push(bytes)?;
        return Ok(words);
    }
    if how.delims.is_empty() {
        return read_netstrings(alloc, bytes);
    }
    Ok(split(alloc, &how.delims, bytes)?)
}
