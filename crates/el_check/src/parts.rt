//! The faults of a script's parts, as faults of the script.
ghost use Rattle.std.specs.Prelude.{◌≡◌};
ghost use Rattle.el_check.specs.Faults.{lex_kind, brace_kind, tree_kind};
ghost use Rattle.el_check.specs.Checks.{at_line, or_memory};

use crate::kind::{CheckFault, CheckKind};
use el_blocks::SpellFault;
use el_lex::{LexFault, LexKind};
use el_reader::Misread;
use el_tree::Fault;
use el_words::NoMemory;

impl From<LexFault> for CheckFault {
    ghost from_gives = { λ found fault. (fault.kind, fault.line) ≡ at_line found.line (lex_kind found.kind) };

    fn from(found: LexFault) -> Self {
        let kind = match found.kind {
            LexKind::TooLong => CheckKind::TooLong,
            LexKind::Nul => CheckKind::Nul,
            LexKind::EndAfterBackslash => CheckKind::EndAfterBackslash,
            LexKind::BadNumber => CheckKind::BadNumber,
            LexKind::ByteTooLarge => CheckKind::ByteTooLarge,
            LexKind::NulEscape => CheckKind::NulEscape,
            LexKind::OpenQuote => CheckKind::OpenQuote,
            LexKind::NoMemory => return CheckFault::from(NoMemory),
        };
        CheckFault {
            kind,
            line: found.line,
        }
    }
}

impl From<SpellFault> for CheckFault {
    ghost from_gives = { λ found fault. (fault.kind, fault.line) ≡ or_memory (brace_kind found) };

    fn from(found: SpellFault) -> Self {
        let (kind, line) = match found {
            SpellFault::StrayClose { line } => (CheckKind::StrayClose, line),
            SpellFault::TooDeep { line } => (CheckKind::TooDeep, line),
            SpellFault::Unclosed { line } => (CheckKind::Unclosed, line),
            SpellFault::NoMemory => return CheckFault::from(NoMemory),
        };
        CheckFault { kind, line }
    }
}

impl From<Misread> for CheckFault {
    ghost from_gives = { λ found fault. fault ≡ record { kind = tree_kind found.fault; line = found.line } };

    fn from(found: Misread) -> Self {
        let kind = match found.fault {
            Fault::BlockMissing => CheckKind::BlockMissing,
            Fault::BlockNotLiteral => CheckKind::BlockNotLiteral,
            Fault::OptionNotLiteral => CheckKind::OptionNotLiteral,
            Fault::NameNotLiteral => CheckKind::NameNotLiteral,
            Fault::BadOption => CheckKind::BadOption,
            Fault::BadNumber => CheckKind::BadNumber,
            Fault::BadDirective => CheckKind::BadDirective,
            Fault::ArgumentMissing => CheckKind::ArgumentMissing,
            Fault::ManyWordsInOnePlace => CheckKind::ManyWordsInOnePlace,
            Fault::ManyAfterValue => CheckKind::ManyAfterValue,
            Fault::OptionFromValue => CheckKind::OptionFromValue,
        };
        CheckFault {
            kind,
            line: found.line,
        }
    }
}
