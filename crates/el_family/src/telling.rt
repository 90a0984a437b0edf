//! What is told of a family: a line for each of its members.
ghost use Rattle.std.specs.Prelude.{◌≡◌, ◌++◌, ◌⊎◌, IfOk, IfErr, IsErrOf, OnOk, option_map};
ghost use Rattle.std.specs.Fmt.{decimal};
ghost use Rattle.el_family.specs.Processes.{process_of, run_of};
ghost use Rattle.el_family.specs.Agreement.{events_in};
ghost use Rattle.el_family.specs.declared.asked.Form.TheVariants.{Lines};
ghost use Rattle.el_family.specs.Ends.{IsToldOf};
ghost use Rattle.el_family.specs.Reports.{GrowsBeyond, counts_of, parent_text, finish_text, status_text, member_line, lines_from};

use crate::counts::{Counts, counts_of};
use crate::family::{Family, FamilyFault};
use crate::growing::whole_family;
use crate::member::{Member, Origin, Ran};
use el_words::{Bytes, NoMemory, Words, put_u64};
use el_world::Finish;
use std::alloc::Global;

/// The report of the family of a process with these words, in the empty environment and the directory `/`. Each member
/// runs in order of number, with this budget and plain answers. There is a line for each:
///
///     member I parent P starts S waits W status T
///
/// P is `-` for member 0. S and W are the numbers of its starts and waits. T is its status, or `spent` if the budget was spent.
///
/// Full exactly if there would be more than `MAX_MEMBERS` members. NoMemory if there is no memory for it.
pub fn report(alloc: Global, words: Words, budget: u64) -> Result<Bytes, FamilyFault>
    ensures ok { IfOk result (λ bytes. IsToldOf Lines words budget bytes) }
    ensures full { IsErrOf result FamilyFault.Full → GrowsBeyond words budget }
    ensures only { IfErr result (λ fault. (fault ≡ FamilyFault.Full) ⊎ (fault ≡ FamilyFault.NoMemory)) }
{
    let family = whole_family(alloc, words, budget)?;
    Ok(lines_of(alloc, &family)?)
}

/// The lines of these members.
pub(crate) fn lines_of(alloc: Global, family: &Family) -> Result<Bytes, NoMemory>
    ensures { IfOk result (λ lines. lines ≡ lines_from 0 family.now) }
{
    let mut lines = Bytes::new(alloc);
    for number in 0..family.len() {
        let Some(member) = family.member(number) else {
            unreachable!();
        };
        put_member(alloc, number, member, &mut lines)?;
    }
    Ok(lines)
}

// Puts the line of a member behind.
#[tactic(auto, unfolding(crate::specs::Reports::member_line))]
fn put_member(
    alloc: Global,
    number: usize,
    member: &Member,
    lines: &mut Bytes,
) -> Result<(), NoMemory>
    ensures { OnOk result (lines.new ≡ lines.old ++ member_line number (process_of member.now)) }
{
    let counts = counts_in(&member.ran);
    put_number(alloc, b"member ", number as u64, lines)?;
    lines.append(b" parent ")?;
    put_parent(alloc, member.origin, lines)?;
    put_number(alloc, b" starts ", counts.starts, lines)?;
    put_number(alloc, b" waits ", counts.waits, lines)?;
    lines.append(b" status ")?;
    put_status(alloc, &member.ran, lines)?;
    lines.append(b"\n")
}

/// Puts a name and a number behind.
pub(crate) fn put_number(
    alloc: Global,
    name: &[u8],
    number: u64,
    lines: &mut Bytes,
) -> Result<(), NoMemory>
    ensures { OnOk result (lines.new ≡ lines.old ++ name.now ++ decimal number) }
{
    let digits = put_u64(alloc, number)?;
    lines.append(name)?;
    lines.append(digits.as_bytes())
}

#[tactic(auto, unfolding(crate::specs::Reports::parent_text))]
fn put_parent(alloc: Global, origin: Option<Origin>, lines: &mut Bytes) -> Result<(), NoMemory>
    ensures { OnOk result (lines.new ≡ lines.old ++ parent_text origin) }
{
    match origin {
        Some(origin) => lines.append(put_u64(alloc, origin.member as u64)?.as_bytes()),
        None => lines.append(b"-"),
    }
}

/// Puts behind how a process ended: its status, `spent`, or `-` for one that hasn't run.
#[tactic(auto, unfolding(crate::specs::Reports::status_text))]
pub(crate) fn put_status(
    alloc: Global,
    ran: &Option<Ran>,
    lines: &mut Bytes,
) -> Result<(), NoMemory>
    ensures { OnOk result (lines.new ≡ lines.old ++ status_text (option_map run_of ran.now)) }
{
    match ran {
        Some(ran) => put_finish(alloc, ran.finish, lines),
        None => lines.append(b"-"),
    }
}

#[tactic(auto, unfolding(crate::specs::Reports::finish_text))]
fn put_finish(alloc: Global, finish: Finish, lines: &mut Bytes) -> Result<(), NoMemory>
    ensures { OnOk result (lines.new ≡ lines.old ++ finish_text finish) }
{
    match finish {
        Finish::Status(code) => lines.append(put_u64(alloc, u64::from(code))?.as_bytes()),
        Finish::Spent => lines.append(b"spent"),
        Finish::NoMemory => lines.append(b"-"),
    }
}

// The starts and waits of a run; none where there is none.
fn counts_in(ran: &Option<Ran>) -> Counts
    ensures { result ≡ counts_of (events_in (option_map run_of ran.now)) }
{
    match ran {
        Some(ran) => counts_of(&ran.log),
        None => Counts {
            starts: 0,
            waits: 0,
        },
    }
}
