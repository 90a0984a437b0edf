//! The tree of a script's tokens, or their first fault.
ghost use Rattle.std.specs.Prelude.{◌≡◌, None, Some, IfOk, IfErr};
ghost use Rattle.el_tree.specs.declared.fault.Fault.TheVariants.{ManyAfterValue as many_after_value};
ghost use Rattle.el_tree.specs.Steps.{answer};
ghost use Rattle.el_reader.specs.Parses.{AreMatched, Parses, fault_of_kind, IsParseFault, IsAnswer};

use crate::reader::read_tree;
use crate::scope::FixedPlaces;
use crate::tree_fault::{TreeFault, TreeKind};
use el_lex::{Token, Tokens};
use el_tree::{Fault, Tree};
use el_words::NoMemory;
use std::alloc::Global;

/// The tree of `tokens`, or their first fault. The words at fixed places aren't tested.
///
/// The braces of `tokens` must match within 255 levels. The kind of a fault says when it comes;
/// `TreeKind::NoMemory` may come at any tokens.
///
/// The forms are those of execline's programs (https://skarnet.org/software/execline/); that they are read before
/// anything is run, and the kinds of faults, are this project's own.
pub fn parse(alloc: Global, tokens: &Tokens) -> Result<Tree, TreeFault>
    requires { AreMatched tokens.now }
    ensures ok { IfOk result (Parses tokens.now) }
    ensures fault { IfErr result (IsParseFault tokens.now) }
    ensures exact { IsAnswer (answer None tokens.now) result }
{
    let copy = copy_of(alloc, tokens)?;
    match read_tree(alloc, FixedPlaces::Untested, copy)? {
        Ok(tree) => Ok(tree),
        Err(misread) => Err(TreeFault {
            kind: kind_of(misread.fault),
            line: misread.line,
        }),
    }
}

// The same tokens again, since the reader moves their words into the tree.
fn copy_of(alloc: Global, tokens: &Tokens) -> Result<Tokens, NoMemory>
    ensures { IfOk result (λ copy. copy ≡ tokens.now) }
{
    let mut copy = Tokens::new(alloc);
    for token in tokens {
        copy.push(copy_of_token(token)?)?;
    }
    Ok(copy)
}

// The same token again.
fn copy_of_token(token: &Token) -> Result<Token, NoMemory>
    ensures { IfOk result (λ copy. copy ≡ token.now) }
{
    Ok(match token {
        Token::Word { line, word } => Token::Word {
            line: *line,
            word: word.copy()?,
        },
        Token::Open { line } => Token::Open { line: *line },
        Token::Close { line } => Token::Close { line: *line },
    })
}

// The kind of a fault but for `Fault::ManyAfterValue`, which comes of a test of fixed places alone.
fn kind_of(fault: Fault) -> TreeKind
    requires { fault ≡ many_after_value → ⊥ }
    ensures { fault_of_kind result ≡ Some fault }
{
    match fault {
        Fault::BlockMissing => TreeKind::BlockMissing,
        Fault::BlockNotLiteral => TreeKind::BlockNotLiteral,
        Fault::OptionNotLiteral => TreeKind::OptionNotLiteral,
        Fault::NameNotLiteral => TreeKind::NameNotLiteral,
        Fault::BadOption => TreeKind::BadOption,
        Fault::BadNumber => TreeKind::BadNumber,
        Fault::BadDirective => TreeKind::BadDirective,
        Fault::ArgumentMissing => TreeKind::ArgumentMissing,
        Fault::ManyWordsInOnePlace => TreeKind::ManyWordsInOnePlace,
        Fault::OptionFromValue => TreeKind::OptionFromValue,
        Fault::ManyAfterValue => unreachable!(),
    }
}
