//! What reads a script's tokens one by one, whatever it makes of them.
ghost use Rattle.el_script.specs.Vocabulary.{Token as TokenOf, TestScope};
ghost use Rattle.std.specs.Prelude.{◌≡◌, ℕ, List, [], IfOk};
ghost use Rattle.el_reader.specs.Inspections.{first_scope};
ghost use Rattle.el_reader.specs.Readers.{MayCome, HasReadSome, IsTaken};

use crate::scope::FixedPlaces;
use el_lex::Token;
use el_tree::PlacedFault;
use el_words::NoMemory;
use std::alloc::Global;

/// What reads a script's tokens one by one, and says what is wrong with the first that is wrong.
pub trait TokenReader {
    /// It has read these tokens, none of which is wrong, where this is the scope of the script.
    ghost has_read: { TestScope → Self → List TokenOf → Type 0 };

    /// How many levels are open in that of the script.
    ghost depth: { Self → ℕ };

    /// Nothing is read yet. Words at fixed places will be tested so.
    fn new(alloc: Global, places: FixedPlaces) -> Result<Self, NoMemory>
        ensures read { IfOk result (λ reader. has_read (first_scope places) reader []) }
        ensures depth { IfOk result (λ reader. depth reader ≡ 0) };

    /// What is wrong with the next token. One that isn't wrong is read. A Close must close a level. After an error, for want of
    /// memory, nothing is known of the script any more.
    fn take(&mut self, alloc: Global, token: Token) -> Result<Option<PlacedFault>, NoMemory>
        requires some { HasReadSome has_read self.old }
        requires may { MayCome token (depth self.old) }
        ensures { IfOk result (IsTaken has_read depth self.old self.new token) };
}
