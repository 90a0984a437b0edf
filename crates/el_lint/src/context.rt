//! What a chain is to the process that runs it.
ghost use Rattle.std.specs.Prelude.{◌≡◌, IfOk};
ghost use Rattle.el_tree.specs.OptionWords.{letters_of};
ghost use Rattle.el_lint.specs.Lints.{place_texts};
ghost use Rattle.el_lint.specs.Contexts.{first_context, goes_on_inside, context_inside, context_later, context_behind};

use crate::inherited::{NONE_MADE, made_behind};
use crate::letters::{tests_block, tests_rest};
use el_proc::NUMBERS;
use el_tree::Places;
use el_words::{NoMemory, Prog, Words};
use std::alloc::Global;

/// Whether it is a test under `-n`, and which descriptors programs in front of it make in its process.
#[derive(Clone, Copy)]
pub(crate) struct Context {
    pub(crate) is_test: bool,
    pub(crate) made: [bool; NUMBERS],
}

impl Context {
    /// That of a script.
    pub(crate) fn first() -> Context
        ensures { result ≡ first_context }
    {
        Context {
            is_test: false,
            made: NONE_MADE,
        }
    }

    /// In the block at the first place of a program with these option words.
    pub(crate) fn inside(
        &self,
        alloc: Global,
        program: Prog,
        options: &Words,
    ) -> Result<Context, NoMemory>
        ensures { IfOk result (λ inside. inside ≡ context_inside self.now program (letters_of program options.now)) }
    {
        let is_test = tests_block(alloc, program, options)?;
        let made = if goes_on_inside(program) {
            self.made
        } else {
            NONE_MADE
        };
        Ok(Context { is_test, made })
    }

    /// In the block at a later one.
    pub(crate) fn later(&self) -> Context
        ensures { result ≡ context_later self.now }
    {
        Context {
            is_test: false,
            made: self.made,
        }
    }

    /// In the rest of a program with these option words and places.
    pub(crate) fn behind(
        &self,
        alloc: Global,
        program: Prog,
        options: &Words,
        places: &Places,
    ) -> Result<Context, NoMemory>
        ensures { IfOk result (λ behind. behind ≡ context_behind self.now program (letters_of program options.now) (place_texts places.now)) }
    {
        let is_test = tests_rest(alloc, self.is_test, program, options)?;
        let made = made_behind(alloc, self.made, program, places)?;
        Ok(Context { is_test, made })
    }
}

// Whether the process of a program goes on with one of its blocks.
fn goes_on_inside(program: Prog) -> bool
    ensures { result ≡ goes_on_inside program }
{
    matches!(program, Prog::Ifelse | Prog::Ifte)
}
