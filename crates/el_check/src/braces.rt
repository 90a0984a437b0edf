//! The braces of a script, told by its tokens alone.
ghost use Rattle.std.specs.Prelude.{◌≡◌, [], ◌∷◌, List, None};
ghost use Rattle.el_lex.specs.declared.token.Token.{Token};
ghost use Rattle.el_reader.specs.Readers.{MayCome, depth_behind};
ghost use Rattle.el_check.specs.Braces.{fault_behind};

use el_blocks::{MAX_LEVELS, SpellFault};
use el_lex::Token;

/// How many blocks are open, and the first fault.
#[derive(Drop)]
pub(crate) struct OpenBlocks {
    pub(crate) depth: u8,
    /// The line of the outermost one, where one is open.
    pub(crate) outermost: u32,
    pub(crate) fault: Option<SpellFault>,
}

impl OpenBlocks {
    /// None is open.
    pub(crate) fn none() -> OpenBlocks
        ensures depth { result.depth ≡ 0 }
        ensures outermost { result.outermost ≡ 0 }
        ensures fault { result.fault ≡ None }
    {
        OpenBlocks {
            depth: 0,
            outermost: 0,
            fault: None,
        }
    }

    /// Takes the next token. Behind a fault nothing counts.
    pub(crate) fn put(&mut self, token: &Token)
        ensures goes { (more : List Token) → fault_behind self.old (token.now ∷ more) ≡ fault_behind self.new more }
        ensures before { self.new.fault ≡ None → self.old.fault ≡ None }
        ensures may { self.new.fault ≡ None → MayCome token.now self.old.depth }
        ensures depth { self.new.fault ≡ None → self.new.depth ≡ depth_behind token.now self.old.depth }
    {
        if self.fault.is_some() {
            return;
        }
        match token {
            Token::Word { .. } => {}
            Token::Open { line } => {
                if self.depth == MAX_LEVELS {
                    self.fault = Some(SpellFault::TooDeep { line: *line });
                    return;
                }
                if self.depth == 0 {
                    self.outermost = *line;
                }
                self.depth += 1;
            }
            Token::Close { line } => {
                if self.depth == 0 {
                    self.fault = Some(SpellFault::StrayClose { line: *line });
                    return;
                }
                self.depth -= 1;
            }
        }
    }

    /// No block may be open at the end.
    pub(crate) fn end(self) -> Option<SpellFault>
        ensures { result ≡ fault_behind self [] }
    {
        if self.fault.is_some() || self.depth == 0 {
            return self.fault;
        }
        Some(SpellFault::Unclosed {
            line: self.outermost,
        })
    }
}
