//! The words of a spelling in the making, and its open blocks.
ghost use Rattle.std.specs.Prelude.{◌≡◌, List, [], ◌∷◌, ◌++◌, OnOk, IfErr};
ghost use Rattle.el_words.specs.Word.{HasNul};
ghost use Rattle.el_words.specs.Args.{indented};
ghost use Rattle.el_lex.specs.declared.token.Token.{Token};
ghost use Rattle.el_lex.specs.declared.token.Token.TheVariants.{Open as open_token, Close as close_token};
ghost use Rattle.el_blocks.specs.Computed.{IsAnswer, IsFaultOf};
ghost use Rattle.el_blocks.specs.Speller.{given};

use crate::SpellFault;
use el_lex::Token;
use el_words::{NoMemory, Words};
use std::alloc::Global;

/// The greatest number of blocks that stand in one another. A limit of this project's own.
pub const MAX_LEVELS: u8 = 255;

/// The words so far, and how many blocks are open behind them.
#[derive(Drop)]
pub(crate) struct Speller {
    pub(crate) words: Words,
    pub(crate) depth: u8,
    /// The line of the outermost open block, where one is open.
    pub(crate) outermost: u32,
    /// The last word behind spaces. It stays here, so that its memory serves the next one.
    indented: Vec<u8>,
}

impl Speller {
    pub(crate) fn new(alloc: Global) -> Speller
        ensures words { result.words ≡ [] }
        ensures depth { result.depth ≡ 0 }
        ensures outermost { result.outermost ≡ 0 }
    {
        Speller {
            words: Words::new(alloc),
            depth: 0,
            outermost: 0,
            indented: Vec::new(alloc),
        }
    }

    /// Takes the next token.
    pub(crate) fn put(&mut self, token: &Token) -> Result<(), SpellFault>
        ensures ok { OnOk result ((more : List Token) → given self.old (token.now ∷ more) ≡ given self.new more) }
        ensures err { IfErr result (λ fault. (more : List Token) → IsFaultOf (given self.old (token.now ∷ more)) fault) }
    {
        match token {
            Token::Word { word, .. } => Ok(self.push(word.as_bytes())?),
            Token::Open { line } => self.open(*line),
            Token::Close { line } => self.close(*line),
        }
    }

    fn open(&mut self, line: u32) -> Result<(), SpellFault>
        ensures ok { OnOk result ((more : List Token) → given self.old (open_token line ∷ more) ≡ given self.new more) }
        ensures err { IfErr result (λ fault. (more : List Token) → IsFaultOf (given self.old (open_token line ∷ more)) fault) }
    {
        if self.depth == MAX_LEVELS {
            return Err(SpellFault::TooDeep { line });
        }
        if self.depth == 0 {
            self.outermost = line;
        }
        self.depth += 1;
        Ok(())
    }

    fn close(&mut self, line: u32) -> Result<(), SpellFault>
        ensures ok { OnOk result ((more : List Token) → given self.old (close_token line ∷ more) ≡ given self.new more) }
        ensures err { IfErr result (λ fault. (more : List Token) → IsFaultOf (given self.old (close_token line ∷ more)) fault) }
    {
        if self.depth == 0 {
            return Err(SpellFault::StrayClose { line });
        }
        self.depth -= 1;
        Ok(self.push(b"")?)
    }

    /// Puts a word last, behind one space per open block.
    fn push(&mut self, text: &[u8]) -> Result<(), NoMemory>
        requires { HasNul text.now → ⊥ }
        ensures words { OnOk result (self.new.words ≡ self.old.words ++ indented self.old.depth text.now ∷ []) }
        ensures depth { self.new.depth ≡ self.old.depth }
        ensures outermost { self.new.outermost ≡ self.old.outermost }
    {
        if self.depth == 0 {
            return self.words.push(text);
        }
        self.indented.clear();
        self.indented.resize(usize::from(self.depth), b' ')?;
        self.indented.extend_from_slice(text)?;
        self.words.push(&self.indented)
    }

    /// The words, if no block is open.
    pub(crate) fn end(self) -> Result<Words, SpellFault>
        ensures { IsAnswer (given self []) result }
    {
        if self.depth == 0 {
            Ok(self.words)
        } else {
            Err(SpellFault::Unclosed {
                line: self.outermost,
            })
        }
    }
}
