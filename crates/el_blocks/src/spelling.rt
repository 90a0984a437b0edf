//! The spelling of tokens.
ghost use Rattle.std.specs.Prelude.{◌≡◌, IfOk, IfErr};
ghost use Rattle.el_blocks.specs.Tokens.{Spells};
ghost use Rattle.el_blocks.specs.Braces.{IsBraceFault};
ghost use Rattle.el_blocks.specs.Computed.{spelling_of, IsAnswer};

use crate::SpellFault;
use crate::speller::Speller;
use el_lex::Tokens;
use el_words::Words;
use std::alloc::Global;

/// The spelling of `tokens`, or the first brace fault from the left.
///
/// Each word is given one leading space per open block. An Open gives no word. A Close gives the word
/// of one space per block that is still open after it, so that an outermost block ends with the empty
/// word. `SpellFault` says when each error comes; `SpellFault::NoMemory` may come at any tokens.
///
/// The spelling is el_semicolon's (https://skarnet.org/software/execline/el_semicolon.html); the limit of
/// `MAX_LEVELS` is this project's own.
pub fn spell(alloc: Global, tokens: &Tokens) -> Result<Words, SpellFault>
    ensures ok { IfOk result (Spells tokens.now) }
    ensures fault { IfErr result (IsBraceFault tokens.now) }
    ensures exact { IsAnswer (spelling_of tokens.now) result }
{
    spell_all(alloc, tokens)
}

/// The same, by what is computed of the tokens alone.
fn spell_all(alloc: Global, tokens: &Tokens) -> Result<Words, SpellFault>
    ensures { IsAnswer (spelling_of tokens.now) result }
{
    let mut speller = Speller::new(alloc);
    for token in tokens {
        speller.put(token)?;
    }
    speller.end()
}
