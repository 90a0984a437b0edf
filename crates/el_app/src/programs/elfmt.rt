//! elfmt [-k] [-u] file · elfmt [-k] [-u] -c script
#![tactic(auto, using(el_world::proofs::Follows::stops, el_proc::proofs::Refusals::refusals), unfolding(crate::specs::Elfmt::elfmt_run, crate::specs::Elfmt::lays_out_asked, crate::specs::Elfmt::laid_out))]

ghost use Rattle.el_room.specs.Vocabulary.{Ran, RanWith, Tells, standard_fds, Follows, state_of};
ghost use Rattle.std.specs.Prelude.{◌≡◌, ◌<◌, length, None, Ok, Err, IfOk};
ghost use Rattle.el_tree.specs.Upgrade.{upgraded};
ghost use Rattle.el_layout.specs.Layout.{layout};
ghost use Rattle.el_check.specs.declared.kind.CheckKind.TheVariants.{NoMemory as no_memory};
ghost use Rattle.el_check.specs.Checks.{checked_in};
ghost use Rattle.el_app.specs.Options.{asked};
ghost use Rattle.el_app.specs.Output.{put_out};
ghost use Rattle.el_app.specs.Elfmt.{fault_trouble, written_tree, kept_layout, written_text, laid_out, lays_out_asked, formatter_options, elfmt_run};
ghost use Rattle.el_app.specs.Calls.{elfmt_call, outcome_of};
ghost use Rattle.el_app.specs.Completeness.{LaysOutTrees};

use crate::asked::Asked;
use crate::file::script_from;
use crate::names::elfmt_name;
use crate::options::read_asked;
use crate::output::put_out;
use crate::process::first_process;
use crate::refusal::refused;
use crate::script::fault_in;
use el_check::{CheckFault, CheckKind, parse_script};
use el_env::Env;
use el_keep::{keep, keep_wider};
use el_layout::print;
use el_options::ELFMT;
use el_proc::{Kind, Proc, Trouble};
use el_tree::{Tree, upgrade};
use el_words::{Bytes, NoMemory, Word, Words};
use el_world::{Finish, Subject, World};
use std::alloc::Global;

/// Runs elfmt with these words, of which the first is its name: the layout of the script's tree is written to
/// number 1, as `el_layout::print` says it, and the status is 0; where it can't be written, 111. With `-u` it is
/// the layout of the upgraded tree, as `el_tree::upgrade` says it, in which importas stands for import.
///
/// With `-k` the layout has the comments and the empty lines of the script, as `el_keep::keep` says it, and with `-u` too as
/// `el_keep::keep_wider` does.
///
/// Its script is found as execlineb's is, with the letters `k`, `u` and `c` alone, and its words are refused with
/// status 100 in the same order. Words behind the script or the file aren't used. A file is read with one unit of `budget`
/// before each read; one that can't be read ends with 111. A script without a tree is refused with status 100
/// and the message `elfmt: line L: KIND`; where values may stand isn't tested.
///
/// elfmt is this project's own.
pub fn elfmt<W: World>(
    alloc: Global,
    words: &Words,
    env: Env,
    dir: Word,
    world: &mut W,
    budget: u64,
) -> Finish
    requires { 0 < length words.now }
    ensures complete { LaysOutTrees (W.seen world.old) (W.seen world.new) words.now env dir budget result }
    ensures told { Tells (W.seen world.old) (W.seen world.new) (elfmt_call words.now env dir) budget (outcome_of result) }
    ensures run { RanWith (W.seen world.old) (W.seen world.new) (elfmt_call words.now env dir) budget (outcome_of result) }
    ensures spent { result ≡ Finish.Spent → Ran (W.seen world.old) (W.seen world.new) (elfmt_call words.now env dir) budget (outcome_of result) 0 }
{
    let mut proc = first_process(alloc, env, dir, budget);
    run_elfmt(alloc, words, &mut proc, world)
}

/// elfmt with these words in a process that has none yet.
pub(crate) fn run_elfmt<W: World>(
    alloc: Global,
    words: &Words,
    proc: &mut Proc,
    world: &mut W,
) -> Finish
    requires named { 0 < length words.now }
    requires standard { proc.old.fds ≡ standard_fds }
    ensures { Follows {A = ⊥} {B = ⊥} (W.seen world.old) (W.seen world.new) (elfmt_run words.now (state_of proc.old)) proc.old.budget (Err result) (λ never. never) (state_of proc.new) proc.new.budget }
{
    match asked(alloc, words) {
        Ok(Ok(asked)) => lay_out_asked(alloc, asked, proc, world),
        Ok(Err(trouble)) => refused(alloc, elfmt_name(), proc, trouble, None, world),
        Err(NoMemory) => Finish::NoMemory,
    }
}

// What the words ask for.
fn asked(alloc: Global, words: &Words) -> Result<Result<Asked, Trouble>, NoMemory>
    requires { 0 < length words.now }
    ensures { IfOk result (λ read. read ≡ asked formatter_options words.now) }
{
    read_asked(alloc, &[], &ELFMT, words)
}

fn lay_out_asked<W: World>(alloc: Global, asked: Asked, proc: &mut Proc, world: &mut W) -> Finish
    requires { proc.old.fds ≡ standard_fds }
    ensures { Follows {A = ⊥} {B = ⊥} (W.seen world.old) (W.seen world.new) (lays_out_asked (Ok asked) (state_of proc.old)) proc.old.budget (Err result) (λ never. never) (state_of proc.new) proc.new.budget }
{
    match script_from(alloc, elfmt_name(), &asked.source, proc, world) {
        Ok(script) => lay_out(
            alloc,
            asked.upgrades,
            asked.keeps,
            asked.source.subject(),
            script.as_bytes(),
            proc,
            world,
        ),
        Err(finish) => finish,
    }
}

// Writes the layout, or complains of the first fault.
fn lay_out<W: World>(
    alloc: Global,
    upgrades: bool,
    keeps: bool,
    subject: Subject<'_>,
    script: &[u8],
    proc: &Proc,
    world: &mut W,
) -> Finish
    requires { proc.now.fds ≡ standard_fds }
    ensures { Follows {A = ⊥} {B = ⊥} (W.seen world.old) (W.seen world.new) (laid_out (written_text upgrades keeps script.now) (state_of proc.now) (checked_in None script.now)) proc.now.budget (Err result) (λ never. never) (state_of proc.now) proc.now.budget }
{
    match parse_script(alloc, script) {
        Ok(tree) => match text_of(alloc, upgrades, keeps, script, &tree) {
            Ok(text) => put_out(text.as_bytes(), 0, proc, world),
            Err(NoMemory) => Finish::NoMemory,
        },
        Err(fault) => match trouble_of(fault) {
            Ok(trouble) => {
                let subject = fault_in(subject, trouble);
                refused(alloc, elfmt_name(), proc, trouble, Some(subject), world)
            }
            Err(NoMemory) => Finish::NoMemory,
        },
    }
}

// What is written of the tree.
fn text_of(
    alloc: Global,
    upgrades: bool,
    keeps: bool,
    script: &[u8],
    tree: &Tree,
) -> Result<Bytes, NoMemory>
    ensures { IfOk result (λ text. text ≡ written_text upgrades keeps script.now tree.now) }
{
    if keeps {
        kept_layout(alloc, upgrades, script, tree)
    } else {
        written_layout(alloc, upgrades, tree)
    }
}

// The layout of the tree or of the upgraded one, with the comments of the script.
fn kept_layout(alloc: Global, upgrades: bool, script: &[u8], tree: &Tree) -> Result<Bytes, NoMemory>
    ensures { IfOk result (λ text. text ≡ kept_layout upgrades script.now tree.now) }
{
    let plain = print(alloc, tree)?;
    if upgrades {
        let layout = upgraded_layout(alloc, tree)?;
        keep_wider(alloc, plain.as_bytes(), layout.as_bytes(), script)
    } else {
        keep(alloc, plain.as_bytes(), script)
    }
}

// The layout of the tree, or of the upgraded one.
fn written_layout(alloc: Global, upgrades: bool, tree: &Tree) -> Result<Bytes, NoMemory>
    ensures { IfOk result (λ text. text ≡ layout (written_tree upgrades tree.now)) }
{
    if upgrades {
        upgraded_layout(alloc, tree)
    } else {
        print(alloc, tree)
    }
}

fn upgraded_layout(alloc: Global, tree: &Tree) -> Result<Bytes, NoMemory>
    ensures { IfOk result (λ text. text ≡ layout (upgraded tree.now)) }
{
    print(alloc, &upgrade(alloc, tree)?)
}

/// The trouble of a fault, unless it is want of memory.
pub(crate) fn trouble_of(fault: CheckFault) -> Result<Trouble, NoMemory>
    ensures ok { IfOk result (λ trouble. trouble ≡ fault_trouble fault.kind fault.line) }
    ensures known { IfOk result (λ trouble. fault.kind ≡ no_memory → ⊥) }
{
    let kind = match fault.kind {
        CheckKind::TooLong => Kind::TooLong,
        CheckKind::Nul => Kind::Nul,
        CheckKind::EndAfterBackslash => Kind::EndAfterBackslash,
        CheckKind::BadNumber => Kind::BadNumber,
        CheckKind::ByteTooLarge => Kind::ByteTooLarge,
        CheckKind::NulEscape => Kind::NulEscape,
        CheckKind::OpenQuote => Kind::OpenQuote,
        CheckKind::StrayClose => Kind::StrayClose,
        CheckKind::TooDeep => Kind::TooDeep,
        CheckKind::Unclosed => Kind::Unclosed,
        CheckKind::BlockMissing => Kind::BlockMissing,
        CheckKind::BlockNotLiteral => Kind::BlockNotLiteral,
        CheckKind::OptionNotLiteral => Kind::OptionNotLiteral,
        CheckKind::NameNotLiteral => Kind::NameNotLiteral,
        CheckKind::BadOption => Kind::BadOption,
        CheckKind::BadDirective => Kind::BadDirective,
        CheckKind::ArgumentMissing => Kind::ArgumentMissing,
        CheckKind::ManyWordsInOnePlace => Kind::ManyWordsInOnePlace,
        CheckKind::ManyAfterValue => Kind::ManyAfterValue,
        CheckKind::OptionFromValue => Kind::OptionFromValue,
        CheckKind::NoMemory => return Err(NoMemory),
    };
    Ok(Trouble::Script {
        line: fault.line,
        kind,
    })
}
