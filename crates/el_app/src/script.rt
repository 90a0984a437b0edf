//! The words of a script.
#![tactic(auto, using(el_world::proofs::Follows::stops, el_proc::proofs::Refusals::refusals), unfolding(crate::specs::Scripts::script_words, crate::specs::Scripts::spelled_words))]

ghost use Rattle.el_room.specs.Vocabulary.{standard_fds, Follows, state_of, spelling_of};
ghost use Rattle.std.specs.Prelude.{◌≡◌, ◌↔◌, IfOk, IsErr};
ghost use Rattle.el_lex.specs.declared.fault.LexKind.TheVariants.{NoMemory as no_memory};
ghost use Rattle.el_blocks.specs.declared.fault.SpellFault.TheVariants.{NoMemory as no_spell_memory};
ghost use Rattle.el_app.specs.Scripts.{script_trouble, brace_trouble, spelled_words, script_words};

use crate::names::execlineb_name;
use crate::refusal::refused;
use el_blocks::{SpellFault, spell};
use el_lex::{LexFault, LexKind, Tokens, lex};
use el_proc::{Kind, Proc, Trouble};
use el_words::{NoMemory, Words};
use el_world::{Finish, Subject, World};
use std::alloc::Global;

/// The words of a script. Its first fault of lexing, or else its first brace fault, ends the process with
/// 100, behind a message with its line.
pub(crate) fn script_words<W: World>(
    alloc: Global,
    subject: Subject<'_>,
    script: &[u8],
    proc: &Proc,
    world: &mut W,
) -> Result<Words, Finish>
    requires { proc.now.fds ≡ standard_fds }
    ensures { Follows (W.seen world.old) (W.seen world.new) (script_words (state_of proc.now) script.now) proc.now.budget result (λ words. words) (state_of proc.now) proc.now.budget }
{
    match lex(alloc, script) {
        Ok(tokens) => spelled(alloc, subject, &tokens, proc, world),
        Err(fault) => {
            let trouble = trouble_of(fault)?;
            let subject = fault_in(subject, trouble);
            Err(refused(alloc, execlineb_name(), proc, trouble, Some(subject), world))
        }
    }
}

fn spelled<W: World>(
    alloc: Global,
    subject: Subject<'_>,
    tokens: &Tokens,
    proc: &Proc,
    world: &mut W,
) -> Result<Words, Finish>
    requires { proc.now.fds ≡ standard_fds }
    ensures { Follows (W.seen world.old) (W.seen world.new) (spelled_words (state_of proc.now) (spelling_of tokens.now)) proc.now.budget result (λ words. words) (state_of proc.now) proc.now.budget }
{
    match spell(alloc, tokens) {
        Ok(words) => Ok(words),
        Err(fault) => {
            let trouble = brace_trouble(fault)?;
            let subject = fault_in(subject, trouble);
            Err(refused(alloc, execlineb_name(), proc, trouble, Some(subject), world))
        }
    }
}

/// What a message is about that tells of a script's fault: the script, the fault's line, and what is wrong there.
pub(crate) fn fault_in(subject: Subject<'_>, trouble: Trouble) -> Subject<'_> {
    match trouble {
        Trouble::Script { line, kind } => subject.at_line(line).with_note(kind.sentence()),
        _ => subject,
    }
}

// The trouble of a brace fault, unless it is want of memory.
fn brace_trouble(fault: SpellFault) -> Result<Trouble, NoMemory>
    ensures ok { IfOk result (λ trouble. trouble ≡ brace_trouble fault) }
    ensures memory { IsErr result ↔ (fault ≡ no_spell_memory) }
{
    let (line, kind) = match fault {
        SpellFault::StrayClose { line } => (line, Kind::StrayClose),
        SpellFault::TooDeep { line } => (line, Kind::TooDeep),
        SpellFault::Unclosed { line } => (line, Kind::Unclosed),
        SpellFault::NoMemory => return Err(NoMemory),
    };
    Ok(Trouble::Script { line, kind })
}

// The trouble of a fault, unless it is want of memory.
fn trouble_of(fault: LexFault) -> Result<Trouble, NoMemory>
    ensures ok { IfOk result (λ trouble. trouble ≡ script_trouble fault.kind fault.line) }
    ensures memory { IsErr result ↔ (fault.kind ≡ no_memory) }
{
    let kind = match fault.kind {
        LexKind::TooLong => Kind::TooLong,
        LexKind::Nul => Kind::Nul,
        LexKind::EndAfterBackslash => Kind::EndAfterBackslash,
        LexKind::BadNumber => Kind::BadNumber,
        LexKind::ByteTooLarge => Kind::ByteTooLarge,
        LexKind::NulEscape => Kind::NulEscape,
        LexKind::OpenQuote => Kind::OpenQuote,
        LexKind::NoMemory => return Err(NoMemory),
    };
    Ok(Trouble::Script {
        line: fault.line,
        kind,
    })
}
