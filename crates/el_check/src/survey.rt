//! A script token by token, to its end or its first fault.
ghost use Rattle.el_script.specs.Vocabulary.{Token as TokenOf, spelling_of, TestScope};
ghost use Rattle.std.specs.Prelude.{[], ◌∷◌, ◌++◌, List, IfOk, OnOk};
ghost use Rattle.el_reader.specs.Inspections.{first_scope as scope_of};
ghost use Rattle.el_check.specs.Checks.{braces_checked};
ghost use Rattle.el_check.specs.Surveys.{IsSurvey, HasSurveyed, EndsAs};

use crate::braces::OpenBlocks;
use crate::kind::CheckFault;
use el_lex::Token;
use el_reader::{FixedPlaces, Misread, TokenReader, token_line};
use el_words::NoMemory;
use std::alloc::Global;

/// What is known of a script that is read token by token: the first fault of its braces, and its first one as a tree, which
/// `reader` finds.
#[derive(Drop)]
pub(crate) struct Survey<R> {
    pub(crate) blocks: OpenBlocks,
    pub(crate) reader: R,
    /// The line of the last token; 0 before the first.
    pub(crate) last_line: u32,
    pub(crate) misread: Option<Misread>,
}

/// A reader that has read all tokens of a script, and the line of the last one; 0 where there is none.
#[derive(Drop)]
pub(crate) struct Surveyed<R> {
    pub(crate) reader: R,
    pub(crate) last_line: u32,
}

impl<R: TokenReader + Drop> Survey<R> {
    /// Nothing is read yet. Words at fixed places will be tested so.
    pub(crate) fn new(alloc: Global, places: FixedPlaces) -> Result<Survey<R>, NoMemory>
        ensures { IfOk result (λ survey. IsSurvey R.has_read R.depth (scope_of places) survey []) }
    {
        Ok(Survey {
            blocks: OpenBlocks::none(),
            reader: R::new(alloc, places)?,
            last_line: 0,
            misread: None,
        })
    }

    /// Reads the next token. Behind a brace fault nothing counts, and behind another fault the braces alone. After an error, for
    /// want of memory, nothing is known of the script any more.
    pub(crate) fn put(&mut self, alloc: Global, token: Token) -> Result<(), NoMemory>
        requires { HasSurveyed R.has_read R.depth self.old }
        ensures { OnOk result ((first : TestScope) (before : List TokenOf) → IsSurvey R.has_read R.depth first self.old before → IsSurvey R.has_read R.depth first self.new (before ++ token ∷ [])) }
    {
        self.blocks.put(&token);
        if self.blocks.fault.is_some() || self.misread.is_some() {
            return Ok(());
        }
        let line = token_line(&token);
        match self.reader.take(alloc, token)? {
            Some(found) => self.misread = Some(Misread::new(found, line, self.last_line)),
            None => self.last_line = line,
        }
        Ok(())
    }

    /// The reader, where nothing more comes, or the first fault before the end.
    pub(crate) fn end(self) -> Result<Surveyed<R>, CheckFault>
        ensures { (first : TestScope) (tokens : List TokenOf) → IsSurvey R.has_read R.depth first self tokens → EndsAs R.has_read R.depth first (braces_checked first tokens (spelling_of tokens)) result }
    {
        if let Some(fault) = self.blocks.end() {
            return Err(CheckFault::from(fault));
        }
        match self.misread {
            Some(misread) => Err(CheckFault::from(misread)),
            None => Ok(Surveyed {
                reader: self.reader,
                last_line: self.last_line,
            }),
        }
    }
}
