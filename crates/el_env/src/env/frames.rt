//! Frames of positional parameters, pushed and popped.
ghost use Rattle.std.specs.Prelude.{◌≡◌, ◌⊎◌, ◌≤◌, false, length, Some, None, IfOk, IfErr, OnOk, OnErr, IsErrOf};
ghost use Rattle.std.specs.Option.{option_map};
ghost use Rattle.el_env.specs.Frames.{frame_at, frame_of, base_of, frame_text, depth_of, pushed_name, popped_name, pushed, popped, HasNoFrames, IsTooDeep, IsDeepest};

use crate::env::{Env, EnvFault};
use el_words::{NoMemory, Word, parse_u64, put_u64};
use std::alloc::Global;

/// A frame name: `base` alone at depth 0, and else `base`, a colon and the depth.
#[derive(Clone, Copy)]
struct Frame<'a> {
    base: &'a [u8],
    depth: u64,
}

impl Env {
    /// Renames each frame name `V:n` to `V:n+1` and each `V` to `V:1`, all at once. `V` begins with `#`
    /// or a digit and holds no colon. It is `TooDeep` exactly where a name `V:18446744073709551615` is
    /// set. After an error nothing is changed.
    pub fn push_frame(&mut self) -> Result<(), EnvFault>
        ensures ok { OnOk result (self.new ≡ pushed self.old) }
        ensures back { OnOk result (popped self.new ≡ self.old) }
        ensures deep { IsErrOf result EnvFault.TooDeep → IsTooDeep self.old }
        ensures not_deep { OnOk result (IsTooDeep self.old → ⊥) }
        ensures only { IfErr result (λ e. (e ≡ EnvFault.TooDeep) ⊎ (e ≡ EnvFault.NoMemory)) }
        ensures err { OnErr result (self.new ≡ self.old) }
    {
        if !self.has_frames()? {
            return Ok(());
        }
        *self = self.pushed()?;
        Ok(())
    }

    /// Removes each frame name `V` without a depth, and renames `V:1` to `V` and `V:n+1` to `V:n`, all
    /// at once. After an error nothing is changed.
    pub fn pop_frame(&mut self) -> Result<(), NoMemory>
        ensures ok { OnOk result (self.new ≡ popped self.old) }
        ensures err { OnErr result (self.new ≡ self.old) }
    {
        *self = self.popped()?;
        Ok(())
    }

    // Whether a frame name is set.
    fn has_frames(&self) -> Result<bool, NoMemory>
        ensures { IfOk result (λ has. has ≡ false → HasNoFrames self.now) }
    {
        let variables = self.sorted()?;
        for variable in &variables {
            if parse_frame(variable.name).is_some() {
                return Ok(true);
            }
        }
        Ok(false)
    }

    // The variables after a push.
    fn pushed(&self) -> Result<Env, EnvFault>
        ensures ok { IfOk result (λ env. env ≡ pushed self.now) }
        ensures deep { IsErrOf result EnvFault.TooDeep → IsTooDeep self.now }
        ensures not_deep { OnOk result (IsTooDeep self.now → ⊥) }
        ensures only { IfErr result (λ e. (e ≡ EnvFault.TooDeep) ⊎ (e ≡ EnvFault.NoMemory)) }
    {
        self.names_are_good();
        let variables = self.sorted()?;
        let mut pushed = Env::new(self.alloc);
        for variable in &variables {
            let name = deeper_name(self.alloc, variable.name)?;
            pushed.store(name, Word::of(self.alloc, variable.value)?)?;
        }
        Ok(pushed)
    }

    // The variables after a pop.
    fn popped(&self) -> Result<Env, NoMemory>
        ensures { IfOk result (λ env. env ≡ popped self.now) }
    {
        self.names_are_good();
        let variables = self.sorted()?;
        let mut popped = Env::new(self.alloc);
        for variable in &variables {
            if let Some(name) = shallower_name(self.alloc, variable.name)? {
                popped.store(name, Word::of(self.alloc, variable.value)?)?;
            }
        }
        Ok(popped)
    }
}

/// What a push makes of the name, or `TooDeep` where it is at the greatest depth.
fn deeper_name(alloc: Global, name: &[u8]) -> Result<Vec<u8>, EnvFault>
    ensures name { IfOk result (λ text. text.items ≡ pushed_name name.now) }
    ensures not_deep { OnOk result (IsDeepest name.now → ⊥) }
    ensures deep { IsErrOf result EnvFault.TooDeep → IsDeepest name.now }
    ensures only { IfErr result (λ e. (e ≡ EnvFault.TooDeep) ⊎ (e ≡ EnvFault.NoMemory)) }
{
    match parse_frame(name) {
        None => Ok(name.to_vec(alloc)?),
        Some(frame) if frame.depth == u64::MAX => Err(EnvFault::TooDeep),
        Some(frame) => Ok(put_frame(alloc, frame.base, frame.depth + 1)?),
    }
}

/// What a pop makes of the name, or None where it removes it.
fn shallower_name(alloc: Global, name: &[u8]) -> Result<Option<Vec<u8>>, NoMemory>
    ensures { IfOk result (λ text. option_map (λ t. t.items) text ≡ popped_name name.now) }
{
    match parse_frame(name) {
        None => Ok(Some(name.to_vec(alloc)?)),
        Some(frame) if frame.depth == 0 => Ok(None),
        Some(frame) => Ok(Some(put_frame(alloc, frame.base, frame.depth - 1)?)),
    }
}

/// The frame name with this base and depth.
fn put_frame(alloc: Global, base: &[u8], depth: u64) -> Result<Vec<u8>, NoMemory>
    ensures { IfOk result (λ text. text.items ≡ frame_text (frame_at base.now depth)) }
{
    let mut text = base.to_vec(alloc)?;
    if depth > 0 {
        text.push(b':')?;
        text.extend_from_slice(put_u64(alloc, depth)?.as_bytes())?;
    }
    Ok(text)
}

/// The frame that a name is, or None where it is another name.
fn parse_frame(name: &[u8]) -> Option<Frame<'_>>
    ensures { option_map (λ f. frame_at f.base.now f.depth) result ≡ frame_of name.now }
{
    let first = *name.first()?;
    if first != b'#' && !first.is_ascii_digit() {
        return None;
    }
    let (base, behind) = name.split_at(base_len(name));
    let depth = match behind {
        [] => 0,
        [_, digits @ ..] => parse_depth(digits)?,
    };
    Some(Frame { base, depth })
}

/// How many bytes stand before the first colon.
fn base_len(name: &[u8]) -> usize
    ensures base { result ≡ length (base_of name.now) }
    ensures within { result ≤ length name.now }
{
    name.iter().take_while(|byte| **byte != b':').count()
}

/// The depth that digits write: a number from 1 without leading zeros.
fn parse_depth(digits: &[u8]) -> Option<u64>
    ensures { result ≡ depth_of digits.now }
{
    match digits {
        [b'0', ..] => None,
        _ => parse_u64(digits),
    }
}
