//! What comes next.
ghost use Rattle.el_script.specs.Vocabulary.{token_line, next_shape};
ghost use Rattle.std.specs.Prelude.{◌≡◌};
ghost use Rattle.el_blocks.specs.Tokens.{shape_of};
ghost use Rattle.el_reader.specs.Roles.{next_told};

use el_lex::Token;

/// What comes next in a level.
#[derive(Clone, Copy)]
pub(crate) enum Next<'a> {
    /// Nothing: no token is left, or the level is closed.
    Over,
    /// A word.
    Text(&'a [u8]),
    /// An Open.
    Group,
}

/// A token as what comes next.
#[inline(always)]
pub(crate) fn next_in(token: &Token) -> Next<'_>
    ensures { next_told result ≡ next_shape (shape_of token.now) }
{
    match token {
        Token::Word { word, .. } => Next::Text(word.as_bytes()),
        Token::Open { .. } => Next::Group,
        Token::Close { .. } => Next::Over,
    }
}

/// The line of a token.
pub fn token_line(token: &Token) -> u32
    ensures { result ≡ token_line token.now }
{
    match token {
        Token::Word { line, .. } | Token::Open { line } | Token::Close { line } => *line,
    }
}
