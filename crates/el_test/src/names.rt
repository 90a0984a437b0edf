//! Operators by their words.

ghost use Rattle.std.specs.Prelude.{◌≡◌};
ghost use Rattle.el_test.specs.Operators.{binary_text, prefix_text, joiner_text, binary_named, prefix_named, joiner_named, is_numeric, holds, order_of};

use crate::operators::{BINARIES, Binary, JOINERS, Joiner, PREFIXES, Prefix, Question, Unary};
use el_words::parse_u64;
use std::cmp::Ordering;

impl Binary {
    /// How it is written.
    #[tactic(auto, unfolding(crate::specs::Operators::binary_text))]
    pub fn text(self) -> &'static [u8]
        ensures { result.now ≡ binary_text self }
    {
        match self {
            Binary::Same => b"=",
            Binary::Differs => b"!=",
            Binary::Before => b"<",
            Binary::Behind => b">",
            Binary::Equal => b"-eq",
            Binary::Unequal => b"-ne",
            Binary::Below => b"-lt",
            Binary::AtMost => b"-le",
            Binary::Above => b"-gt",
            Binary::AtLeast => b"-ge",
        }
    }

    /// Whether it compares numbers.
    pub fn is_numeric(self) -> bool
        ensures { result ≡ is_numeric self }
    {
        !matches!(
            self,
            Binary::Same | Binary::Differs | Binary::Before | Binary::Behind
        )
    }
}

impl Prefix {
    /// How it is written.
    #[tactic(auto, unfolding(crate::specs::Operators::prefix_text))]
    pub fn text(self) -> &'static [u8]
        ensures { result.now ≡ prefix_text self }
    {
        match self {
            Prefix::Not => b"!",
            Prefix::Open => b"(",
            Prefix::On(Unary::Filled) => b"-n",
            Prefix::On(Unary::Blank) => b"-z",
            Prefix::On(Unary::Asked(Question::Exists)) => b"-e",
            Prefix::On(Unary::Asked(Question::File)) => b"-f",
            Prefix::On(Unary::Asked(Question::Dir)) => b"-d",
            Prefix::On(Unary::Asked(Question::Readable)) => b"-r",
            Prefix::On(Unary::Asked(Question::Writable)) => b"-w",
            Prefix::On(Unary::Asked(Question::Runnable)) => b"-x",
            Prefix::On(Unary::Asked(Question::NotEmpty)) => b"-s",
            Prefix::On(Unary::Asked(Question::Link)) => b"-h",
        }
    }
}

impl Joiner {
    /// How it is written.
    #[tactic(auto, unfolding(crate::specs::Operators::joiner_text))]
    pub fn text(self) -> &'static [u8]
        ensures { result.now ≡ joiner_text self }
    {
        match self {
            Joiner::And => b"-a",
            Joiner::Or => b"-o",
            Joiner::Close => b")",
        }
    }
}

/// The binary operator that a word is.
#[tactic(auto, unfolding(crate::specs::Operators::binary_named))]
pub fn binary_of(word: &[u8]) -> Option<Binary>
    ensures { result ≡ binary_named word.now }
{
    BINARIES
        .iter()
        .copied()
        .find(|operator| operator.text() == word)
}

/// The prefix that a word is.
#[tactic(auto, unfolding(crate::specs::Operators::prefix_named))]
pub fn prefix_of(word: &[u8]) -> Option<Prefix>
    ensures { result ≡ prefix_named word.now }
{
    PREFIXES
        .iter()
        .copied()
        .find(|prefix| prefix.text() == word)
}

/// The joiner that a word is.
#[tactic(auto, unfolding(crate::specs::Operators::joiner_named))]
pub fn joiner_of(word: &[u8]) -> Option<Joiner>
    ensures { result ≡ joiner_named word.now }
{
    JOINERS.iter().copied().find(|joiner| joiner.text() == word)
}

/// Whether a comparison holds. A word that is no number counts as 0.
#[tactic(auto, unfolding(crate::specs::Operators::holds))]
pub fn holds(operator: Binary, left: &[u8], right: &[u8]) -> bool
    ensures { result ≡ holds operator left.now right.now }
{
    let order = order_of(operator.is_numeric(), left, right);
    match operator {
        Binary::Same | Binary::Equal => order == Ordering::Equal,
        Binary::Differs | Binary::Unequal => order != Ordering::Equal,
        Binary::Before | Binary::Below => order == Ordering::Less,
        Binary::Behind | Binary::Above => order == Ordering::Greater,
        Binary::AtMost => order != Ordering::Greater,
        Binary::AtLeast => order != Ordering::Less,
    }
}

fn order_of(numeric: bool, left: &[u8], right: &[u8]) -> Ordering
    ensures { result ≡ order_of numeric left.now right.now }
{
    if numeric {
        let left = parse_u64(left).unwrap_or(0);
        let right = parse_u64(right).unwrap_or(0);
        left.cmp(&right)
    } else {
        left.cmp(right)
    }
}
