//! The one reader of trees.
ghost use Rattle.el_script.specs.Vocabulary.{Token, TestScope as ScopeOf, fault_of, last_line as last_line_of, answer};
ghost use Rattle.std.specs.Prelude.{◌≡◌, List, IfOk};
ghost use Rattle.el_reader.specs.Parses.{AreMatched};
ghost use Rattle.el_reader.specs.Inspections.{first_scope};
ghost use Rattle.el_reader.specs.Readers.{HasReadSome, open_levels, HoldsTokens, fault_line, answer_told};

use crate::builder::Builder;
use crate::inspection::Inspection;
use crate::next::token_line;
use crate::scope::FixedPlaces;
use crate::token_reader::TokenReader;
use el_lex::{Token, Tokens};
use el_tree::{Fault, PlacedFault, Tree};
use el_words::NoMemory;
use std::alloc::Global;

/// The first fault of tokens, and its line.
#[derive(Clone, Copy, PartialEq, Eq)]
pub struct Misread {
    pub fault: Fault,
    pub line: u32,
}

impl Misread {
    /// The fault that was found, on the line of the next token or on that of the last one before it.
    pub fn new(found: PlacedFault, line: u32, last_line: u32) -> Misread
        ensures fault { result.fault ≡ fault_of found }
        ensures line { result.line ≡ fault_line found line last_line }
    {
        let (fault, line) = match found {
            PlacedFault::At(fault) => (fault, line),
            PlacedFault::Before(fault) => (fault, last_line),
        };
        Misread { fault, line }
    }
}

/// What is read so far of a script's tree: what is known of the script, and what is made of it.
#[derive(Drop)]
pub struct Reader {
    pub(crate) inspection: Inspection,
    pub(crate) builder: Builder,
}

/// The tree of `tokens`, or their first fault, where the words at fixed places are tested so. Words that are kept are moved.
///
/// The braces of `tokens` must match within 255 levels.
pub fn read_tree(
    alloc: Global,
    places: FixedPlaces,
    tokens: Tokens,
) -> Result<Result<Tree, Misread>, NoMemory>
    requires { AreMatched tokens }
    ensures { IfOk result (λ read. answer_told read ≡ answer (first_scope places) tokens) }
{
    let mut reader = Reader::new(alloc, places)?;
    let mut last_line = 0;
    for token in tokens {
        let line = token_line(&token);
        if let Some(found) = reader.take(alloc, token)? {
            return Ok(Err(Misread::new(found, line, last_line)));
        }
        last_line = line;
    }
    Ok(reader.end(alloc, last_line))
}

impl TokenReader for Reader {
    ghost has_read = { HoldsTokens };

    ghost depth = { open_levels };

    fn new(alloc: Global, places: FixedPlaces) -> Result<Reader, NoMemory> {
        Ok(Reader {
            inspection: Inspection::new(alloc, places)?,
            builder: Builder::new(alloc),
        })
    }

    #[inline(always)]
    fn take(&mut self, alloc: Global, token: Token) -> Result<Option<PlacedFault>, NoMemory> {
        match self.inspection.read(alloc, &token)? {
            Err(found) => Ok(Some(found)),
            Ok(role) => {
                self.builder.put(alloc, role, token)?;
                Ok(None)
            }
        }
    }
}

impl Reader {
    /// The tree, or what is wrong with the end, where the last token is on `last_line`. Each block must be closed.
    pub fn end(self, alloc: Global, last_line: u32) -> Result<Tree, Misread>
        requires some { HasReadSome HoldsTokens self }
        requires closed { open_levels self ≡ 0 }
        ensures { (first : ScopeOf) (tokens : List Token) → HoldsTokens first self tokens → last_line ≡ last_line_of tokens → answer_told result ≡ answer first tokens }
    {
        match self.inspection.end() {
            Some(found) => Err(Misread::new(found, 0, last_line)),
            None => Ok(self.builder.tree(alloc)),
        }
    }
}
