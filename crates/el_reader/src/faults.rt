//! What is wrong with what comes next in a program or directive.
ghost use Rattle.el_script.specs.Vocabulary.{program_named, PlaceKind as PlaceKindOf, shape_of, is_literal, ◌or_else◌, fault_of, name_fault, directive_fault, is_loop, kind_fault, unended_fault, value_fault};
ghost use Rattle.std.specs.Prelude.{◌≡◌, List};
ghost use Rattle.el_tree.specs.Faults.{rank, names_directive, block_fault, number_fault};
ghost use Rattle.el_reader.specs.Inspections.{scope_told};
ghost use Rattle.el_reader.specs.Roles.{next_told, first_kind};
ghost use Rattle.el_reader.specs.Known.{verdict};

use crate::next::Next;
use crate::scope::TestScope;
use el_options::{PlaceKind, is_bad_number, is_number_text, is_wrong_use, reads_options, rule_on};
use el_tree::{Fault, PlacedFault};
use el_words::{Prog, name_of, parse_u64};

/// Whether a word holds no `$`.
pub(crate) fn is_literal(text: &[u8]) -> bool
    ensures { result ≡ is_literal text.now }
{
    !text.contains(&b'$')
}

/// What is wrong with the first word that is no option, where no `--` was read.
#[tactic(auto, using(crate::proofs::Told::unended))]
pub(crate) fn unended_fault(program: Prog, ended: bool, next: Next<'_>) -> Option<PlacedFault>
    ensures { result ≡ unended_fault (shape_of program).letters ended (next_told next.entry) }
{
    match next {
        Next::Text(text) if reads_options(program) && !ended && !is_literal(text) => {
            Some(PlacedFault::At(Fault::OptionFromValue))
        }
        _ => None,
    }
}

/// What is wrong with a name, or with an item of a block of names.
pub(crate) fn name_fault(next: Next<'_>) -> Option<PlacedFault>
    ensures { result ≡ name_fault (next_told next.entry) }
{
    match next {
        Next::Text(text) if !is_literal(text) => Some(PlacedFault::At(Fault::NameNotLiteral)),
        Next::Group => Some(PlacedFault::At(Fault::NameNotLiteral)),
        Next::Over | Next::Text(_) => None,
    }
}

/// What is wrong where a directive may begin.
pub(crate) fn directive_fault(next: Next<'_>) -> Option<PlacedFault>
    ensures { result ≡ directive_fault (next_told next.entry) }
{
    match next {
        Next::Over => None,
        Next::Text(text) if names_directive(text) => None,
        Next::Text(_) | Next::Group => Some(PlacedFault::At(Fault::BadDirective)),
    }
}

fn names_directive(text: &[u8]) -> bool
    ensures { result ≡ names_directive (program_named text.now) }
{
    matches!(
        name_of(text),
        Some(Prog::Define | Prog::Importas | Prog::Multidefine | Prog::Elgetpositionals)
    )
}

/// What is wrong with what comes at the next place, or behind the last one: in directives the next one begins, and a loop's body may
/// be missing.
pub(crate) fn kind_fault(
    scope: &TestScope,
    program: Prog,
    in_directives: bool,
    kind: Option<PlaceKind>,
    next: Next<'_>,
) -> Option<PlacedFault>
    ensures { (kinds : List PlaceKindOf) → first_kind kinds ≡ kind → result ≡ kind_fault (scope_told scope.now) program in_directives kinds (next_told next.entry) }
{
    match (kind, next) {
        (None, _) if in_directives => directive_fault(next),
        (None, Next::Over) if is_loop(program) => Some(PlacedFault::Before(Fault::ArgumentMissing)),
        (None, _) => None,
        (Some(PlaceKind::Name | PlaceKind::Fixed), Next::Over) => {
            Some(PlacedFault::Before(Fault::ArgumentMissing))
        }
        (Some(PlaceKind::Name), _) => name_fault(next),
        (Some(PlaceKind::OptionalWord), Next::Over) => None,
        (Some(PlaceKind::Fixed | PlaceKind::OptionalWord), Next::Text(text)) => scope.fault(text),
        (Some(PlaceKind::Fixed | PlaceKind::OptionalWord), Next::Group) => {
            Some(PlacedFault::At(Fault::ManyWordsInOnePlace))
        }
        (Some(PlaceKind::OptionalNumber), _) => number_fault(next),
        (Some(_), _) => block_fault(next),
    }
}

fn is_loop(program: Prog) -> bool
    ensures { result ≡ is_loop program }
{
    matches!(
        program,
        Prog::Loopwhilex | Prog::Forx | Prog::Forstdin | Prog::Forbacktickx
    )
}

fn block_fault(next: Next<'_>) -> Option<PlacedFault>
    ensures { result ≡ block_fault (next_told next.entry) }
{
    match next {
        Next::Over => Some(PlacedFault::Before(Fault::BlockMissing)),
        Next::Text(text) if is_literal(text) => Some(PlacedFault::At(Fault::BlockMissing)),
        Next::Text(_) => Some(PlacedFault::At(Fault::BlockNotLiteral)),
        Next::Group => None,
    }
}

// A word where a number may stand.
fn number_fault(next: Next<'_>) -> Option<PlacedFault>
    ensures { result ≡ number_fault (next_told next.entry) }
{
    match next {
        Next::Text(text) if !is_literal(text) => Some(PlacedFault::At(Fault::OptionNotLiteral)),
        Next::Text(text) if is_number_text(text) && parse_u64(text).is_none() => {
            Some(PlacedFault::At(Fault::BadNumber))
        }
        _ => None,
    }
}

/// What is wrong with what comes next as the value of this letter.
pub(crate) fn value_fault(program: Prog, letter: u8, next: Next<'_>) -> Option<PlacedFault>
    ensures { result ≡ value_fault program letter (next_told next.entry) }
{
    match next {
        Next::Over => Some(PlacedFault::Before(Fault::BadOption)),
        Next::Text(text) => {
            let rule = rule_on(program, letter);
            let literal = (!is_literal(text)).then_some(PlacedFault::At(Fault::OptionNotLiteral));
            let wrong = is_wrong_use(rule, text).then_some(PlacedFault::Before(Fault::BadOption));
            let bad = is_bad_number(rule, text).then_some(PlacedFault::At(Fault::BadNumber));
            or_else(literal, or_else(wrong, bad))
        }
        Next::Group => Some(PlacedFault::At(Fault::OptionNotLiteral)),
    }
}

/// Of two faults the one whose kind comes first.
pub(crate) fn or_else(one: Option<PlacedFault>, other: Option<PlacedFault>) -> Option<PlacedFault>
    ensures { result ≡ (one or_else other) }
{
    match (one, other) {
        (Some(found), Some(earlier)) if rank(earlier) < rank(found) => other,
        _ => one.or(other),
    }
}

// The place of a fault among its kinds.
fn rank(found: PlacedFault) -> u8
    ensures { result ≡ rank (fault_of found) }
{
    let (PlacedFault::At(fault) | PlacedFault::Before(fault)) = found;
    fault as u8
}

/// What is right, unless this is wrong with it.
#[inline(always)]
pub(crate) fn verdict<T: Copy>(fault: Option<PlacedFault>, right: T) -> Result<T, PlacedFault>
    ensures { result ≡ verdict fault right }
{
    match fault {
        Some(found) => Err(found),
        None => Ok(right),
    }
}
