//! How eltest ends, and what it says of it.

ghost use Rattle.std.specs.Prelude.{◌≡◌, ◌++◌, IfOk, OnOk};
ghost use Rattle.std.specs.Fmt.{decimal};
ghost use Rattle.el_test.specs.Ends.{status_of, kind_text, message_of, fault_text, failed_text};

use crate::fault::{TestFault, TestKind};
use el_words::{Bytes, NoMemory, put_u64};
use std::alloc::Global;

/// How eltest ends.
#[derive(Clone, Copy, Debug, PartialEq, Eq)]
pub enum TestEnd {
    True,
    False,
    /// The words are no expression.
    Refused(TestFault),
    /// An ask failed.
    Failed,
    /// There was no memory to go on.
    NoMemory,
}

impl From<NoMemory> for TestEnd {
    ghost use Rattle.std.specs.Prelude.{◌≡◌};
    ghost use Rattle.el_test.specs.declared.end.TestEnd.TheVariants.{NoMemory as no_memory};

    ghost from_gives = { λ _ end. end ≡ no_memory };

    fn from(_: NoMemory) -> Self {
        TestEnd::NoMemory
    }
}

/// The status of the process.
pub fn status_of(end: TestEnd) -> u8
    ensures { result ≡ status_of end }
{
    match end {
        TestEnd::True => 0,
        TestEnd::False => 1,
        TestEnd::Refused(_) => 100,
        TestEnd::Failed => 111,
        TestEnd::NoMemory => 110,
    }
}

/// What standard error is told: a line for words that are refused and for an ask that failed, and nothing for the
/// other ends.
#[tactic(auto, unfolding(crate::specs::Ends::message_of))]
pub fn show(alloc: Global, end: &TestEnd) -> Result<Bytes, NoMemory>
    ensures { IfOk result (λ bytes. bytes ≡ message_of end.now) }
{
    match end {
        TestEnd::Refused(fault) => show_fault(alloc, *fault),
        TestEnd::Failed => Bytes::from_slice(alloc, failed_text()),
        TestEnd::True | TestEnd::False | TestEnd::NoMemory => Ok(Bytes::new(alloc)),
    }
}

#[tactic(auto, unfolding(crate::specs::Ends::fault_text))]
fn show_fault(alloc: Global, fault: TestFault) -> Result<Bytes, NoMemory>
    ensures { IfOk result (λ bytes. bytes ≡ fault_text fault) }
{
    let mut line = Bytes::from_slice(alloc, b"eltest: ")?;
    line.append(kind_text(fault.kind))?;
    line.append(b" at ")?;
    line.append(put_u64(alloc, fault.at as u64)?.as_bytes())?;
    line.append(b"\n")?;
    Ok(line)
}

#[tactic(auto, unfolding(crate::specs::Ends::kind_text))]
fn kind_text(kind: TestKind) -> &'static [u8]
    ensures { result.now ≡ kind_text kind }
{
    match kind {
        TestKind::Incomplete => b"Incomplete",
        TestKind::Unexpected => b"Unexpected",
        TestKind::BadNumber => b"BadNumber",
        TestKind::TooDeep => b"TooDeep",
    }
}

#[tactic(auto, unfolding(crate::specs::Ends::failed_text))]
fn failed_text() -> &'static [u8]
    ensures { result.now ≡ failed_text }
{
    b"eltest: system call failed\n"
}
