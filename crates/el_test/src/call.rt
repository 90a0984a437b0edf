//! The truth of the expression that words are.

ghost use Rattle.std.specs.Prelude.{◌≡◌, [], ◌<◌, ◌-◌, length};
ghost use Rattle.el_test.specs.Ends.{Ends};
ghost use Rattle.el_test.specs.Walks.{Checked, IsRead};

use crate::asker::Asker;
use crate::end::TestEnd;
use crate::fault::TestFault;
use crate::nobody::Nobody;
use crate::walk::walk;
use crate::walking::{Halt, Standing};
use el_words::{Word, Words};
use std::alloc::Global;

/// The truth of the expression that `words` are; its paths are taken from the directory `dir`.
///
/// True, False or Failed exactly where they are the words of a proper expression: then `asker` is asked what the
/// truth of that expression asks on the answers found, in order and no more. Failed comes only where an ask answered
/// it. Otherwise Refused, with the reading's fault and no ask. NoMemory where there is no memory to go on: what was asked by then is
/// a beginning of the same asks.
pub fn eltest<A: Asker>(alloc: Global, words: &Words, dir: &Word, asker: &mut A) -> TestEnd
    ensures { Ends result dir.now words.now (A.heard asker.old) (A.heard asker.new) }
{
    if words.is_empty() {
        return TestEnd::False;
    }
    match check(alloc, words, dir) {
        Ok(()) => tell(alloc, words, dir, asker),
        Err(end) => end,
    }
}

// The first walk, which only reads.
fn check(alloc: Global, words: &Words, dir: &Word) -> Result<(), TestEnd>
    requires { 0 < length words.now }
    ensures { Checked result words.now }
{
    match walk(alloc, words, dir, &mut Nobody, Standing::Settled) {
        Ok(_) => Ok(()),
        Err(Halt::Wrong(stop)) => Err(TestEnd::Refused(TestFault {
            kind: stop.kind,
            at: words.len().saturating_sub(stop.left),
        })),
        Err(Halt::NoMemory) => Err(TestEnd::NoMemory),
        Err(Halt::Failed) => unreachable!(),
    }
}

// The second one, which asks.
fn tell<A: Asker>(alloc: Global, words: &Words, dir: &Word, asker: &mut A) -> TestEnd
    requires { IsRead words.now }
    ensures { Ends result dir.now words.now (A.heard asker.old) (A.heard asker.new) }
{
    match walk(alloc, words, dir, asker, Standing::Open) {
        Ok(true) => TestEnd::True,
        Ok(false) => TestEnd::False,
        Err(Halt::Failed) => TestEnd::Failed,
        Err(Halt::NoMemory) => TestEnd::NoMemory,
        Err(Halt::Wrong(_)) => unreachable!(),
    }
}
